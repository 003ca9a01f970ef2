// The wheel's memory apart from FRAM: EDAC by byte and by file, the counts, the FRAM status, and how bytes are stored in any buffer.
#![tactic(auto)]

pub mod bytes;
pub mod counts;
pub mod edac;
pub mod status;
