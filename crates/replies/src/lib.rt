// What the exported functions are made of: the map of a file after the checks of a call, the numbers
// that stand for answers, and values written into lent lists where these have room.
#![tactic(auto)]

pub mod opening;
pub mod values;
pub mod writing;
