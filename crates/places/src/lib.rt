// Records of a width in the words of a list: how many there are, and where one with a place stands.
#![tactic(auto)]

pub mod heads;
pub mod places;
pub mod stores;
