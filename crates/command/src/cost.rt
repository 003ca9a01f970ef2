// What a command costs, as a count.
ghost use Rattle.std.specs.Prelude.{◌≡◌};
ghost use Rattle.command.specs.Cost.{command_cost};

use crate::code::Command;
use carrying::Ended;
use fram_commands::cost::crc_cost;

// What the command of a code costs that came to this, with this data.
pub fn command_cost(code: u8, ended: Ended, field: &[u8]) -> u32
    ensures { result ≡ command_cost code ended field.now }
{
    match Command::try_from(code) {
        Ok(Command::Crc) => crc_cost(ended, field),
        _ => 0,
    }
}
