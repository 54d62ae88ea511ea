// A module pack: its limits, resources and entry points, and what stands where in its words.
#![tactic(auto)]

pub mod parts;
pub mod reads;
pub mod types;
pub mod varyings;
