// WRITE EDAC 0x0A.
ghost use Rattle.std.specs.Prelude.{◌≡◌, ◌≤◌, length};
ghost use Rattle.memory.specs.Edac.{edac_size};
ghost use Rattle.carrying.specs.Ending.{left, leaves};
ghost use Rattle.edac_commands.specs.WriteEdac.{write_edac_of};

use carrying::{CommandError, Ended};
use field::fields::word16;
use memory::bytes::put;
use memory::edac::EdacAddress;
use read_only::store::store;

#[tactic(auto, unfolding(crate::specs::WriteEdac::write_edac_of))]
pub fn write_edac(room: usize, edac: &mut [u8], field: &[u8], reply: &mut [u8]) -> Ended
    requires { (room ≤ length reply.old) × (length edac.old ≡ edac_size) }
    ensures { left result reply.new edac.new
        ≡ leaves (write_edac_of room edac.old field.now) reply.old edac.old }
{
    let size = field.len();
    let address = word16(field, 0);
    if size < 3 || room < size || !EdacAddress(address).holds(size - 2) {
        return Err(CommandError::Refused);
    }
    let at = usize::from(address);
    store(&field[2..], edac, at);
    // The reply shows what memory now holds: not what was sent, where that met a read-only byte.
    put(&field[..2], reply, 0);
    put(&edac[at..at + (size - 2)], reply, 2);
    Ok(size)
}
