// Size lists: whether words are one, and a size recorded.
#![tactic(auto)]

pub mod size_record;
pub mod sizes;
