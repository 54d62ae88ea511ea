// The rules for bindings by value: when a layout entry serves a resource, and the entry that a resource asks for.
// These are the ones to read. The stage check applies the same rules on words, in word_rules: by value a check of a small compute stage takes
// 14 % more cycles on the board. Both are proved equal to bindings specs/Rules.antt.
#![tactic(auto)]

pub mod check_words;
pub mod derives;
pub mod texture_uses;
pub mod uses;
