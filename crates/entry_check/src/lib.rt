// The check of one entry point of a module pack, and of the names of several.
// Readers answer positions and not the words from there on: the positions of records are what the check of a pack hands out.
#![tactic(auto)]

pub mod check_entry;
pub mod check_names;
pub mod check_varyings;
pub mod role;
