// The resources of an entry point against a layout, provided or derived, and its pairs of textures and samplers.
#![tactic(auto)]

pub mod derive;
pub mod pairs;
pub mod provide;
pub mod resources;
pub mod table;
pub mod types;
