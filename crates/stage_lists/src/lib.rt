// What passes between stages: whether words are such a list, look-ups, and the list out.
#![tactic(auto)]

pub mod list_out;
pub mod out_words;
pub mod stage_io;
