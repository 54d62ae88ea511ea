// One stage of a pipeline against its layout, its forerunner and the limits.
#![tactic(auto)]

pub mod check;
pub mod judge;
pub mod types;
