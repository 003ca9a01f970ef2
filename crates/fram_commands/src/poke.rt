// POKE 0x03.
ghost use Rattle.std.specs.Prelude.{◌≡◌, ◌≤◌, length};
ghost use Rattle.blocks.specs.Lent.{kept_in, SameLoans};
ghost use Rattle.carrying.specs.Ending.{left, leaves};
ghost use Rattle.fram_commands.specs.Poke.{poke_of};

use crate::windows::is_over_border;
use blocks::fram::Fram;
use carrying::{CommandError, Ended};
use field::fields::word32;
use memory::bytes::put;

pub fn poke(
    room: usize,
    first: u32,
    locked: bool,
    fram: &mut Fram<'_, '_>,
    field: &[u8],
    reply: &mut [u8],
) -> Ended
    requires { room ≤ length reply.old }
    ensures leaves { left result reply.new (kept_in fram.new)
        ≡ leaves (poke_of room first locked (kept_in fram.old) field.now) reply.old (kept_in fram.old) }
    ensures lent { SameLoans fram.new fram.old }
{
    let size = field.len();
    if size < 5 || room < size {
        return Err(CommandError::Refused);
    }
    let address = word32(field, 0);
    let bytes = &field[4..];
    if is_over_border(address, bytes.len()) {
        return Err(CommandError::Refused);
    }
    let at = blocks::place(first, fram.bytes.len(), address, bytes.len()).ok_or(
        CommandError::Unfitted,
    )?;
    if !locked {
        fram.store(at, bytes);
    }
    put(field, reply, 0);
    Ok(size)
}
