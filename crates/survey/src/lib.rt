// The survey text: its numbers and lines, read from places of the text.
#![tactic(auto)]

pub mod lines;
pub mod numbers;
pub mod reader;
