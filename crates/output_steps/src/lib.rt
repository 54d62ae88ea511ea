// The outputs of an entry point, the slots between stages, and the list out.
#![tactic(auto)]

pub mod entry_point;
pub mod list_out;
pub mod outputs;
pub mod types;
