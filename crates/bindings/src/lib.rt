// Shader resources and layout entries: what they are, and their words.
#![tactic(auto)]

pub mod answers;
pub mod binding_codes;
pub mod entry_words;
pub mod resource_words;
pub mod sizes;
pub mod types;
