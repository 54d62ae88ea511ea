// What the test programs share: cases read from standard input, answers written to standard output.
#![tactic(auto)]

pub mod print;
pub mod read;
