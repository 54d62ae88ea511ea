// What a stage check judges last: mesh record, payload, primitive index, draw index and per-vertex inputs.
#![tactic(auto)]

pub mod last;
