// The check of a type list and of a binding: whether they are well formed, and what is noted of each type on the way.
// Readers answer positions and not the words from there on: the position of each type is noted.
#![tactic(auto)]

pub mod bound;
pub mod clips;
pub mod given;
pub mod index;
pub mod members;
pub mod notes;
pub mod types;
