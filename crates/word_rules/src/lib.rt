// Whether an entry serves a resource, and the entry that a resource asks for, on the words of both.
// The stage check applies these. binding_rules has the same rules by value, to be read: by value a check of a small compute stage takes 14 %
// more cycles on the board. Both are proved equal to bindings specs/Rules.antt.
#![tactic(auto)]

pub mod derives;
pub mod textures;
pub mod uses;
