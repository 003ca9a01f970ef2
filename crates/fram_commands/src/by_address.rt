// PEEK, POKE and CRC on the FRAM that their address names.
ghost use Rattle.std.specs.Prelude.{◌≡◌, ◌≤◌, length};
ghost use Rattle.blocks.specs.Fram.{block_start, kept};
ghost use Rattle.blocks.specs.Lent.{kept_in, SameLoans};
ghost use Rattle.carrying.specs.Ending.{left, leaves};
ghost use Rattle.carrying.specs.Held.{frams};
ghost use Rattle.fram_commands.specs.ByAddress.{peek_by_address, poke_by_address, crc_by_address};

use crate::windows::{FIRST_OF_BOOTLOADER, FIRST_OF_USER, chosen, is_bootloaders};
use blocks::fram::Fram;
use carrying::Ended;

pub fn peek(room: usize, bootloader: &[u8], user: &[u8], field: &[u8], reply: &mut [u8]) -> Ended
    requires { room ≤ length reply.old }
    ensures { left result reply.new tt
        ≡ leaves (peek_by_address room bootloader.now user.now field.now) reply.old tt }
{
    let (first, fram) = chosen(field, bootloader, user);
    crate::peek::peek(room, first, fram, field, reply)
}

// `locked` is bootloader FRAM's lock; user FRAM has none.
pub fn poke(
    room: usize,
    locked: bool,
    bootloader: &mut Fram<'_, '_>,
    user: &mut Fram<'_, '_>,
    field: &[u8],
    reply: &mut [u8],
) -> Ended
    requires { room ≤ length reply.old }
    ensures leaves { left result reply.new (frams (kept_in bootloader.new) (kept_in user.new))
        ≡ leaves (poke_by_address room locked (frams (kept_in bootloader.old) (kept_in user.old)) field.now)
        reply.old (frams (kept_in bootloader.old) (kept_in user.old)) }
    ensures bootloader_lent { SameLoans bootloader.new bootloader.old }
    ensures user_lent { SameLoans user.new user.old }
{
    // `chosen` does not serve here: of the FRAM that it does not choose it is not known that its bytes stay as they were.
    if is_bootloaders(field) {
        crate::poke::poke(room, FIRST_OF_BOOTLOADER, locked, bootloader, field, reply)
    } else {
        crate::poke::poke(room, FIRST_OF_USER, false, user, field, reply)
    }
}

pub fn range_crc(
    bootloader: &[u8],
    bootloader_sums: &[u16],
    user: &[u8],
    sums: &[u16],
    field: &[u8],
    reply: &mut [u8],
) -> Ended
    requires in_bounds { 10 ≤ length reply.old }
    requires bootloader_len { (length bootloader.now ≡ block_start (length bootloader_sums.now)) × (length user.now ≡ block_start (length sums.now)) }
    ensures { left result reply.new tt
        ≡ leaves (crc_by_address (frams (kept bootloader.now bootloader_sums.now) (kept user.now sums.now)) field.now)
        reply.old tt }
{
    if is_bootloaders(field) {
        crate::range_crc::range_crc(
            FIRST_OF_BOOTLOADER,
            bootloader,
            bootloader_sums,
            field,
            reply,
        )
    } else {
        crate::range_crc::range_crc(FIRST_OF_USER, user, sums, field, reply)
    }
}
