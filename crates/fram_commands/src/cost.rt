// What a CRC command costs, as a count.
ghost use Rattle.std.specs.Prelude.{◌≡◌};
ghost use Rattle.fram_commands.specs.Cost.{field_cost, crc_cost};

use crate::windows::first_of;
use blocks::cost::range_cost;
use carrying::Ended;
use field::fields::word32;

// What the range of a data field costs. (Of a command that is done it lies in the FRAM that its address names, first byte not after last.)
fn field_cost(field: &[u8]) -> u32
    ensures { result ≡ field_cost field.now }
{
    let from = word32(field, 0);
    let last = word32(field, 4);
    let at = from.saturating_sub(first_of(field)) as usize;
    let size = last.saturating_sub(from) as usize + 1;
    range_cost(at, at + size) as u32
}

// What a CRC command costs that came to this.
pub fn crc_cost(ended: Ended, field: &[u8]) -> u32
    ensures { result ≡ crc_cost ended field.now }
{
    match ended {
        Ok(_) => field_cost(field),
        Err(_) => 0,
    }
}
