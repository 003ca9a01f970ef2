// C's records, and what the rooms below answer as C has it: the C face without the calls on a unit, and its records and numbers.
#![tactic(auto)]

pub mod converting;

ghost use Rattle.std.specs.Prelude.{◌≡◌};
ghost use Rattle.crc.specs.Joining.{joining_of, join_of};
ghost use Rattle.line.specs.Packing.{pack_of};
ghost use Rattle.file_commands.specs.WriteFile.{judge_list_of, storage, store_list_of};
ghost use Rattle.face.specs.Face.{part_in, joined_out, yes_out};
ghost use Rattle.face.specs.Records.{packed_out, packing_by};

use crc::{JoinError, Part};
use file_commands::write_file::{StoreError, judge_list, store_list};
use line::packing::PackError;

// A part as C holds it.
#[repr(C)]
#[derive(Clone, Copy)]
pub struct WheelPart {
    pub sum: u16,
    pub len: u32,
}

// 01's number of joining, and the part, which is all zeros where there is none.
#[repr(C)]
#[derive(Clone, Copy)]
pub struct WheelJoined {
    pub answer: u8,
    pub part: WheelPart,
}

// A unit's record as C holds it: mode, places and lock by their numbers. The narrow fields come last, so that there is no gap between two.
#[repr(C)]
#[derive(Clone, Copy)]
pub struct WheelUnit {
    pub bootloader_len: u64,
    pub fram_len: u64,
    pub count0: u64,
    pub count1: u64,
    pub limit: u16,
    pub strap: u8,
    pub mode: u8,
    pub place0: u8,
    pub place1: u8,
    pub locked: u8,
}

// The unit's record afterwards, how many bytes of a reply buffer are to be sent, 01's number of the answer, the port on which they are to be sent,
// from whose reply buffer, and what a command cost.
#[repr(C)]
#[derive(Clone, Copy)]
pub struct WheelStepped {
    pub unit: WheelUnit,
    pub sent: u64,
    pub answer: u8,
    pub port: u8,
    pub cost: u32,
}

// What the last of many bytes gave back, and how many were taken.
#[repr(C)]
#[derive(Clone, Copy)]
pub struct WheelMany {
    pub last: WheelStepped,
    pub taken: u64,
}

// How many bytes of the reply buffer are packed, and 01's number of packing.
#[repr(C)]
#[derive(Clone, Copy)]
pub struct WheelPacked {
    pub sent: u64,
    pub answer: u8,
}

impl From<WheelPart> for Part {
    ghost from_gives = { λ p r. r ≡ part_in p };

    fn from(part: WheelPart) -> Part {
        Part {
            sum: part.sum,
            len: part.len,
        }
    }
}

impl From<Result<Part, JoinError>> for WheelJoined {
    ghost from_gives = { λ j r. r ≡ joined_out (joining_of j) };

    fn from(joined: Result<Part, JoinError>) -> WheelJoined {
        match joined {
            Ok(part) => WheelJoined {
                answer: 0,
                part: WheelPart {
                    sum: part.sum,
                    len: part.len,
                },
            },
            Err(JoinError::TooLong) => WheelJoined {
                answer: 36,
                part: WheelPart { sum: 0, len: 0 },
            },
        }
    }
}

impl From<Result<usize, PackError>> for WheelPacked {
    ghost from_gives = { λ p r. r ≡ packed_out p };

    fn from(packed: Result<usize, PackError>) -> WheelPacked {
        let answer = match packed {
            Ok(_) => 0,
            Err(PackError::ShortReply) => 25,
            Err(PackError::BadLength) => 35,
        };
        WheelPacked {
            sent: packed.unwrap_or(0) as u64,
            answer,
        }
    }
}

// Joining, packing, and judging and storing a list, as C has them.
pub fn joined(first: WheelPart, second: WheelPart) -> WheelJoined
    ensures { result ≡ joined_out (join_of (part_in first) (part_in second)) }
{
    crc::join(Part::from(first), Part::from(second)).into()
}

pub fn packed(message: &[u8], reply: &mut [u8]) -> WheelPacked
    ensures { packing_by result reply.new ≡ pack_of message.now reply.old }
{
    line::packing::pack(message, reply).into()
}

pub fn judged(limit: u64, list: &[u8]) -> u8
    ensures { result ≡ yes_out (judge_list_of limit list.now) }
{
    u8::from(judge_list(limit as usize, list, 0))
}

pub fn stored(limit: u64, edac: &mut [u8], list: &[u8]) -> u8
    ensures { storage result edac.new ≡ store_list_of limit edac.old list.now }
{
    match store_list(limit as usize, edac, list, 0) {
        Ok(()) => 0,
        Err(StoreError::Unfit) => 4,
        Err(StoreError::BadEdac) => 21,
    }
}
