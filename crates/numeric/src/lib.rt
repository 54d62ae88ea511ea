// Numeric types of shader variables: their words, and when one type is below another.
#![tactic(auto)]

pub mod type_words;
pub mod types;
