// The commands on files of EDAC memory: one module for each, which judges a data field, carries it out on memory and writes its reply's data.
#![tactic(auto)]

pub mod read_file;
mod showing;
pub mod write_file;
