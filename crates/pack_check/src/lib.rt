// The check of a module pack, and where its records begin.
// Readers answer positions and not the words from there on: positions are what the check hands out.
#![tactic(auto)]

pub mod check_pack;
