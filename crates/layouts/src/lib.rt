// Layout lists: whether words are one, look-ups, new entries, and stages joined.
#![tactic(auto)]

pub mod layout;
pub mod visibility;
