// The wheel program's words: those that it is given, as arguments, and those that it says.
#![tactic(auto)]

pub mod arguments;
pub mod report;
