// The commands on FRAM: one module for each, which judges a data field, carries it out on one memory and writes its reply's data; where
// the two FRAMs lie; each command on the one of them that its address names; and what a CRC command costs.
#![tactic(auto)]

pub mod by_address;
pub mod cost;
pub mod peek;
pub mod poke;
pub mod range_crc;
pub mod windows;
