// The C face, as `include/wheel.h` declares it: each function passes on to a room below and adds nothing. It is a library, for
// the theorems of c_demands and for Rattle; board_c exports it to C.
#![tactic(auto)]

ghost use Rattle.std.specs.Prelude.{◌≡◌};
ghost use Rattle.crc.specs.Sum.{sum_from, sum_of};
ghost use Rattle.crc.specs.Joining.{join_of};
ghost use Rattle.blocks.specs.Fram.{kept};
ghost use Rattle.face.specs.Face.{part_in, joined_out, yes_out};
ghost use Rattle.line.specs.Packing.{pack_of};
ghost use Rattle.file_commands.specs.WriteFile.{judge_list_of, storage, store_list_of};
ghost use Rattle.commanding.specs.World.{world};
ghost use Rattle.unit.specs.Steps.{set_up_of, step_of};
ghost use Rattle.streaming.specs.Streams.{steps_of};
ghost use Rattle.face.specs.Records.{lock_in, sending_in, unit_in, returned, returned_by, returned_many, returned_many_by, packing_by};

use face::converting::{lock_in, sending_in};
use face::{WheelJoined, WheelMany, WheelPacked, WheelPart, WheelStepped, WheelUnit};
use judging::Unit;

pub fn wheel_crc(bytes: &[u8]) -> u16
    ensures { result ≡ sum_of bytes.now }
{
    crc::sum(bytes)
}

pub fn wheel_crc_from(start: u16, bytes: &[u8]) -> u16
    ensures { result ≡ sum_from start bytes.now }
{
    crc::sum_from(start, bytes)
}

pub fn wheel_join(first: WheelPart, second: WheelPart) -> WheelJoined
    ensures { result ≡ joined_out (join_of (part_in first) (part_in second)) }
{
    face::joined(first, second)
}

pub fn wheel_set_up(
    strap: u8,
    limit: u64,
    locked: u8,
    edac: &[u8],
    bootloader: &[u8],
    bootloader_sums: &mut [u16],
    fram: &[u8],
    sums: &mut [u16],
    diagnostics: &mut [u32],
    message0: &[u8],
    reply0: &[u8],
    message1: &[u8],
    reply1: &[u8],
) -> WheelStepped
    ensures { returned result (world edac.now (kept bootloader.now bootloader_sums.new) (kept fram.now sums.new) diagnostics.new message0.now reply0.now message1.now reply1.now)
        ≡ returned_by (set_up_of strap limit (lock_in locked) (world edac.now (kept bootloader.now bootloader_sums.old) (kept fram.now sums.old) diagnostics.old message0.now reply0.now message1.now reply1.now)) }
{
    WheelStepped::from(unit::set_up(
        strap,
        limit as usize,
        lock_in(locked),
        edac,
        bootloader,
        bootloader_sums,
        fram,
        sums,
        diagnostics,
        message0,
        reply0,
        message1,
        reply1,
    ))
}

pub fn wheel_step(
    unit: WheelUnit,
    port: u8,
    byte: u8,
    sending0: u8,
    sending1: u8,
    edac: &mut [u8],
    bootloader: &mut [u8],
    bootloader_sums: &mut [u16],
    fram: &mut [u8],
    sums: &mut [u16],
    diagnostics: &mut [u32],
    message0: &mut [u8],
    reply0: &mut [u8],
    message1: &mut [u8],
    reply1: &mut [u8],
) -> WheelStepped
    ensures { returned result (world edac.new (kept bootloader.new bootloader_sums.new) (kept fram.new sums.new) diagnostics.new message0.new reply0.new message1.new reply1.new)
        ≡ returned_by (step_of (unit_in unit) port byte (sending_in sending0 sending1) (world edac.old (kept bootloader.old bootloader_sums.old) (kept fram.old sums.old) diagnostics.old message0.old reply0.old message1.old reply1.old)) }
{
    WheelStepped::from(unit::step(
        Unit::from(unit),
        port,
        byte,
        sending_in(sending0, sending1),
        edac,
        bootloader,
        bootloader_sums,
        fram,
        sums,
        diagnostics,
        message0,
        reply0,
        message1,
        reply1,
    ))
}

pub fn wheel_steps(
    unit: WheelUnit,
    number: u8,
    bytes: &[u8],
    sending0: u8,
    sending1: u8,
    edac: &mut [u8],
    bootloader: &mut [u8],
    bootloader_sums: &mut [u16],
    fram: &mut [u8],
    sums: &mut [u16],
    diagnostics: &mut [u32],
    message0: &mut [u8],
    reply0: &mut [u8],
    message1: &mut [u8],
    reply1: &mut [u8],
) -> WheelMany
    ensures { returned_many result (world edac.new (kept bootloader.new bootloader_sums.new) (kept fram.new sums.new) diagnostics.new message0.new reply0.new message1.new reply1.new)
        ≡ returned_many_by (steps_of (unit_in unit) number bytes.now (sending_in sending0 sending1) (world edac.old (kept bootloader.old bootloader_sums.old) (kept fram.old sums.old) diagnostics.old message0.old reply0.old message1.old reply1.old)) }
{
    let told = sending_in(sending0, sending1);
    WheelMany::from(streaming::steps(
        Unit::from(unit),
        number,
        bytes,
        told,
        edac,
        bootloader,
        bootloader_sums,
        fram,
        sums,
        diagnostics,
        message0,
        reply0,
        message1,
        reply1,
    ))
}

pub fn wheel_pack(message: &[u8], reply: &mut [u8]) -> WheelPacked
    ensures { packing_by result reply.new ≡ pack_of message.now reply.old }
{
    face::packed(message, reply)
}

pub fn wheel_judge_list(limit: u64, list: &[u8]) -> u8
    ensures { result ≡ yes_out (judge_list_of limit list.now) }
{
    face::judged(limit, list)
}

pub fn wheel_store_list(limit: u64, edac: &mut [u8], list: &[u8]) -> u8
    ensures { storage result edac.new ≡ store_list_of limit edac.old list.now }
{
    face::stored(limit, edac, list)
}
