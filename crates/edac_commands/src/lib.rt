// The commands on ranges of EDAC memory: one module for each, which judges a data field, carries it out on memory and writes its reply's data.
#![tactic(auto)]

pub mod gather;
pub mod read_edac;
pub mod write_edac;
