// The four bytes with a meaning of their own on the line (ICD 9.1, Table 10). `specs/Framing` has the same four.
pub const FEND: u8 = 0xC0;

pub const FESC: u8 = 0xDB;

pub const TFEND: u8 = 0xDC;

pub const TFESC: u8 = 0xDD;
