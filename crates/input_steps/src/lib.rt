// The workgroup size and the inputs of an entry point.
#![tactic(auto)]

pub mod inputs;
pub mod types;
pub mod workgroup;
