// PEEK 0x02.
ghost use Rattle.std.specs.Prelude.{◌≡◌, ◌≤◌, length};
ghost use Rattle.carrying.specs.Ending.{left, leaves};
ghost use Rattle.fram_commands.specs.Peek.{peek_range_of, peek_of};

use crate::windows::is_over_border;
use carrying::{CommandError, Ended};
use field::fields::{short_count, word16, word32};
use memory::bytes::put;

// The command with its count.
fn peek_range(
    room: usize,
    first: u32,
    fram: &[u8],
    field: &[u8],
    count: usize,
    reply: &mut [u8],
) -> Ended
    requires { (room ≤ length reply.old) × (4 ≤ length field.now) × (count ≤ 65536) }
    ensures { left result reply.new tt
        ≡ leaves (peek_range_of room first fram.now field.now count) reply.old tt }
{
    let address = word32(field, 0);
    if count == 0 || room < 4 + count || is_over_border(address, count) {
        return Err(CommandError::Refused);
    }
    let at = blocks::place(first, fram.len(), address, count).ok_or(CommandError::Unfitted)?;
    put(&field[..4], reply, 0);
    put(&fram[at..at + count], reply, 4);
    Ok(4 + count)
}

pub fn peek(room: usize, first: u32, fram: &[u8], field: &[u8], reply: &mut [u8]) -> Ended
    requires { room ≤ length reply.old }
    ensures { left result reply.new tt ≡ leaves (peek_of room first fram.now field.now) reply.old tt }
{
    let count = match field.len() {
        5 => usize::from(short_count(field[4])),
        6 => usize::from(word16(field, 4)),
        _ => return Err(CommandError::Refused),
    };
    peek_range(room, first, fram, field, count, reply)
}
