// INIT 0x01.
ghost use Rattle.std.specs.Prelude.{◌≡◌, ◌≤◌, length};
ghost use Rattle.carrying.specs.Ending.{left, leaves};
ghost use Rattle.carrying.specs.Held.{standing};
ghost use Rattle.command.specs.Init.{orders, init_of};

use carrying::{Carried, CommandError, Mode};
use field::fields::word32;
use memory::bytes::put;
use memory::status::write_status;

// The address at which the application starts.
const APPLICATION_START: u32 = 0x2005_0000;

// The number that locks bootloader FRAM.
const LOCK: u32 = 0xdead_beef;

// Whether the field is an order of this value.
fn is_order(value: u32, mode: Mode, field: &[u8]) -> bool
    ensures { result ≡ orders value mode field.now }
{
    mode == Mode::Bootloader && field.len() == 4 && word32(field, 0) == value
}

// `locked` is whether bootloader FRAM is, which the diagnostics show.
pub fn init(
    mode: Mode,
    locked: bool,
    field: &[u8],
    diagnostics: &mut [u32],
    reply: &mut [u8],
) -> Carried
    requires { 4 ≤ length reply.old }
    ensures { left result.ended reply.new (standing result.mode result.locked diagnostics.new)
        ≡ leaves (init_of (standing mode locked diagnostics.old) field.now) reply.old (standing mode locked diagnostics.old) }
{
    if field.is_empty() {
        Carried {
            ended: Ok(0),
            mode: Mode::Bootloader,
            locked,
        }
    } else if is_order(APPLICATION_START, mode, field) {
        put(field, reply, 0);
        Carried {
            ended: Ok(4),
            mode: Mode::Application,
            locked,
        }
    } else if is_order(LOCK, mode, field) {
        write_status(diagnostics, true);
        put(field, reply, 0);
        Carried {
            ended: Ok(4),
            mode,
            locked: true,
        }
    } else {
        Carried {
            ended: Err(CommandError::Refused),
            mode,
            locked,
        }
    }
}
