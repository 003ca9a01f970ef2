// CRC 0x06.
ghost use Rattle.std.specs.Prelude.{◌≡◌, ◌≤◌, length};
ghost use Rattle.blocks.specs.Fram.{block_start, kept};
ghost use Rattle.carrying.specs.Ending.{left, leaves};
ghost use Rattle.fram_commands.specs.Crc.{crc_of};

use crate::windows::is_over_border;
use carrying::{CommandError, Ended};
use field::fields::word32;
use memory::bytes::put;

pub fn range_crc(first: u32, fram: &[u8], sums: &[u16], field: &[u8], reply: &mut [u8]) -> Ended
    requires in_bounds { 10 ≤ length reply.old }
    requires fram_len { length fram.now ≡ block_start (length sums.now) }
    ensures { left result reply.new tt
        ≡ leaves (crc_of first (kept fram.now sums.now) field.now) reply.old tt }
{
    if field.len() != 8 {
        return Err(CommandError::Refused);
    }
    let from = word32(field, 0);
    let last = word32(field, 4);
    if last < from {
        return Err(CommandError::Refused);
    }
    let count = (last - from) as usize + 1;
    if is_over_border(from, count) {
        return Err(CommandError::Refused);
    }
    let at = blocks::place(first, fram.len(), from, count).ok_or(CommandError::Unfitted)?;
    let sum = blocks::range_sum(fram, sums, at, at + count);
    put(field, reply, 0);
    put(&sum.to_le_bytes(), reply, 8);
    Ok(10)
}
