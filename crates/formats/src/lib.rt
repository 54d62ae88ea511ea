// Vertex and texture formats: their types, and whether a shader's type covers one.
#![tactic(auto)]

pub mod formats;
