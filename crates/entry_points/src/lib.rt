// Entry points by their names, and the choice of one where no name is given.
#![tactic(auto)]

pub mod choose;
pub mod module;
pub mod names;
