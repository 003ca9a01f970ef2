// Where the two FRAMs lie, and the border between them.
ghost use Rattle.std.specs.Prelude.{◌≡◌, true, false, ltb};
ghost use Rattle.field.specs.Fields.{word32_at};
ghost use Rattle.fram_commands.specs.Windows.{first_of_user, first_of, over_border, which_of};
ghost use Rattle.carrying.specs.Held.{one_of};

use field::fields::word32;

// The address of the first byte of each.
pub const FIRST_OF_BOOTLOADER: u32 = 0x2000_0000;

pub const FIRST_OF_USER: u32 = 0x2004_0000;

// How many addresses each has, whatever is fitted.
const WINDOW: usize = 0x4_0000;

// Whether a range starts among the addresses of bootloader FRAM and ends among those of user FRAM.
pub fn is_over_border(address: u32, count: usize) -> bool
    ensures { result ≡ over_border address count }
{
    if !(FIRST_OF_BOOTLOADER..FIRST_OF_USER).contains(&address) {
        return false;
    }
    let before = (FIRST_OF_USER - address) as usize;
    before < count && count <= before + WINDOW
}

// Whether a data field's address is below user FRAM, so that its command is on bootloader FRAM.
pub fn is_bootloaders(field: &[u8]) -> bool
    ensures { result ≡ ltb (word32_at field.now 0) first_of_user }
{
    word32(field, 0) < FIRST_OF_USER
}

// The first address of the FRAM that a data field's address names.
pub fn first_of(field: &[u8]) -> u32
    ensures { result ≡ first_of (which_of field.now) }
{
    if is_bootloaders(field) {
        FIRST_OF_BOOTLOADER
    } else {
        FIRST_OF_USER
    }
}

// The first address of the FRAM that a data field's address names, and which of two things, one for each FRAM, is that FRAM's.
pub fn chosen<T: Drop>(field: &[u8], bootloader: T, user: T) -> (u32, T)
    ensures first { result.0 ≡ first_of (which_of field.now) }
    ensures one { result.1 ≡ one_of (which_of field.now) bootloader user }
{
    if is_bootloaders(field) {
        (FIRST_OF_BOOTLOADER, bootloader)
    } else {
        (FIRST_OF_USER, user)
    }
}
