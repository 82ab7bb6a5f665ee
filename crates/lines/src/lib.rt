// The printed lines of a report by their positions: the answer of a line kept as one number, how long
// each printed line is, and writing them.
#![tactic(auto)]

pub mod packing;
pub mod positions;
