// The varyings that a declared type gives.
#![tactic(auto)]

pub mod call;
pub mod put;
pub mod walk;
