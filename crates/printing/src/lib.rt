// What is printed: bytes, words and numbers at places of a lent list, and the lines of answers.
#![tactic(auto)]

pub mod answers;
pub mod writing;
