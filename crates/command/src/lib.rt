// The command that a code names, carried out. The commands that need no memory stand here, one module for each; those on FRAM,
// on files and on ranges of EDAC memory have rooms of their own.
#![tactic(auto)]

mod code;
pub mod cost;
pub mod diagnostic;
pub mod init;
pub mod ping;

ghost use Rattle.std.specs.Prelude.{◌≡◌, ◌≤◌, length};
ghost use Rattle.memory.specs.Counts.{channels};
ghost use Rattle.memory.specs.Edac.{edac_size};
ghost use Rattle.blocks.specs.Lent.{kept_in, SameLoans};
ghost use Rattle.carrying.specs.Ending.{left, leaves};
ghost use Rattle.carrying.specs.Held.{frams, standing, held};
ghost use Rattle.fram_commands.specs.ByAddress.{crc_by_address};
ghost use Rattle.command.specs.Command.{command_of};

use crate::code::Command;
use blocks::fram::Fram;
use carrying::{Carried, Ended, Mode};
use edac_commands::gather::gather;
use edac_commands::read_edac::read_edac;
use edac_commands::write_edac::write_edac;
use file_commands::read_file::read_file;
use file_commands::write_file::write_file;
use fram_commands::by_address;

// CRC on the two FRAMs, lent to read.
fn range_crc(
    bootloader: &Fram<'_, '_>,
    user: &Fram<'_, '_>,
    field: &[u8],
    reply: &mut [u8],
) -> Ended
    requires { 10 ≤ length reply.old }
    ensures { left result reply.new tt
        ≡ leaves (crc_by_address (frams (kept_in bootloader.now) (kept_in user.now)) field.now) reply.old tt }
{
    by_address::range_crc(
        bootloader.bytes,
        bootloader.sums,
        user.bytes,
        user.sums,
        field,
        reply,
    )
}

// Carries a command out: `room` is the longest data field of a reply, `locked` whether bootloader FRAM is.
pub fn carry_out(
    room: usize,
    code: u8,
    mode: Mode,
    locked: bool,
    field: &[u8],
    edac: &mut [u8],
    bootloader: &mut Fram<'_, '_>,
    user: &mut Fram<'_, '_>,
    diagnostics: &mut [u32],
    reply: &mut [u8],
) -> Carried
    requires { (17 ≤ room) × (room ≤ length reply.old) × (length edac.old ≡ edac_size) × (length diagnostics.old ≡ channels) }
    ensures leaves { left result.ended reply.new
        (held (standing result.mode result.locked diagnostics.new) edac.new (frams (kept_in bootloader.new) (kept_in user.new)))
        ≡ leaves (command_of room code
        (held (standing mode locked diagnostics.old) edac.old (frams (kept_in bootloader.old) (kept_in user.old)))
        field.now)
        reply.old
        (held (standing mode locked diagnostics.old) edac.old (frams (kept_in bootloader.old) (kept_in user.old))) }
    ensures bootloader_lent { SameLoans bootloader.new bootloader.old }
    ensures user_lent { SameLoans user.new user.old }
{
    let ended = match Command::named(code, mode) {
        Ok(Command::Ping) => ping::ping(reply),
        Ok(Command::Init) => return init::init(mode, locked, field, diagnostics, reply),
        Ok(Command::Peek) => {
            // Lent on by themselves, since what is lent from inside a struct to be read alone is not known to be unchanged afterwards.
            let bootloader = &mut *bootloader.bytes;
            let user = &mut *user.bytes;
            by_address::peek(room, bootloader, user, field, reply)
        }
        Ok(Command::Poke) => by_address::poke(room, locked, bootloader, user, field, reply),
        Ok(Command::Diagnostic) => diagnostic::diagnostic(room, diagnostics, field, reply),
        Ok(Command::Crc) => range_crc(bootloader, user, field, reply),
        Ok(Command::ReadFile) => read_file(room, edac, field, reply),
        Ok(Command::WriteFile) => write_file(room, edac, field, reply),
        Ok(Command::ReadEdac) => read_edac(room, edac, field, reply),
        Ok(Command::WriteEdac) => write_edac(room, edac, field, reply),
        Ok(Command::Gather) => gather(room, edac, field, reply),
        Err(error) => Err(error),
    };
    Carried {
        ended,
        mode,
        locked,
    }
}
