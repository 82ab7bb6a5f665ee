// What is read from the outline of a sound map: its corners in listing order, and where a query point
// lies.
#![tactic(auto)]

pub mod listing;
pub mod query;
