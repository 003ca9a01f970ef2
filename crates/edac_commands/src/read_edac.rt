// READ EDAC 0x09.
ghost use Rattle.std.specs.Prelude.{◌≡◌, ◌≤◌, length};
ghost use Rattle.memory.specs.Edac.{edac_size};
ghost use Rattle.carrying.specs.Ending.{left, leaves};
ghost use Rattle.edac_commands.specs.ReadEdac.{read_edac_range_of, read_edac_of};

use carrying::{CommandError, Ended};
use field::fields::{short_count, word16};
use memory::bytes::put;
use memory::edac::EdacAddress;

// The command with its count.
#[tactic(auto, unfolding(crate::specs::ReadEdac::read_edac_range_of))]
fn read_range(room: usize, edac: &[u8], field: &[u8], count: u16, reply: &mut [u8]) -> Ended
    requires { (room ≤ length reply.old) × (2 ≤ length field.now) × (length edac.now ≡ edac_size) }
    ensures { left result reply.new tt
        ≡ leaves (read_edac_range_of room edac.now field.now count) reply.old tt }
{
    let size = usize::from(count);
    let address = word16(field, 0);
    if size == 0 || room < 2 + size || !EdacAddress(address).holds(size) {
        return Err(CommandError::Refused);
    }
    let at = usize::from(address);
    put(&field[..2], reply, 0);
    put(&edac[at..at + size], reply, 2);
    Ok(2 + size)
}

#[tactic(auto, unfolding(crate::specs::ReadEdac::read_edac_of))]
pub fn read_edac(room: usize, edac: &[u8], field: &[u8], reply: &mut [u8]) -> Ended
    requires { (room ≤ length reply.old) × (length edac.now ≡ edac_size) }
    ensures { left result reply.new tt
        ≡ leaves (read_edac_of room edac.now field.now) reply.old tt }
{
    match field.len() {
        3 => read_range(room, edac, field, short_count(field[2]), reply),
        4 => read_range(room, edac, field, word16(field, 2), reply),
        _ => Err(CommandError::Refused),
    }
}
