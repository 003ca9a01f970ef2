// A message's data field: its values, and walking a list of structures in it.
#![tactic(auto)]

pub mod fields;
pub mod reader;
