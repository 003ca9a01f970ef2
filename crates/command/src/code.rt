// The codes of the commands.
ghost use Rattle.std.specs.Prelude.{◌≡◌, ◌≢◌, true, false, MatchResult};
ghost use Rattle.carrying.specs.declared.CommandError.TheVariants.{Refused};
ghost use Rattle.command.specs.Codes.{code_of, is_allowed};
ghost use Rattle.command.specs.declared.code.Command.{Command};

use carrying::{CommandError, Mode};

// The commands that there are.
#[derive(Clone, Copy, PartialEq, Eq)]
pub enum Command {
    Ping,
    Init,
    Peek,
    Poke,
    Diagnostic,
    Crc,
    ReadFile,
    WriteFile,
    ReadEdac,
    WriteEdac,
    Gather,
}

// A code that no command has is refused.
impl TryFrom<u8> for Command {
    type Error = CommandError;

    ghost try_from_gives = { λ code r. MatchResult r (λ command. code ≡ code_of command) (λ error. (error ≡ Refused) × ((command : Command) → code ≢ code_of command)) };

    fn try_from(code: u8) -> Result<Command, CommandError> {
        match code {
            0x00 => Ok(Command::Ping),
            0x01 => Ok(Command::Init),
            0x02 => Ok(Command::Peek),
            0x03 => Ok(Command::Poke),
            0x04 => Ok(Command::Diagnostic),
            0x06 => Ok(Command::Crc),
            0x07 => Ok(Command::ReadFile),
            0x08 => Ok(Command::WriteFile),
            0x09 => Ok(Command::ReadEdac),
            0x0a => Ok(Command::WriteEdac),
            0x0b => Ok(Command::Gather),
            _ => Err(CommandError::Refused),
        }
    }
}

impl Command {
    // Whether it is carried out in this mode.
    fn is_allowed(self, mode: Mode) -> bool
        ensures { result ≡ is_allowed self mode }
    {
        match self {
            Command::ReadFile
            | Command::WriteFile
            | Command::ReadEdac
            | Command::WriteEdac
            | Command::Gather => mode == Mode::Application,
            _ => true,
        }
    }

    // The command that a code names, if it is carried out in this mode.
    pub fn named(code: u8, mode: Mode) -> Result<Command, CommandError>
        ensures { MatchResult result (λ command. (code ≡ code_of command) × (is_allowed command mode ≡ true))
            (λ error. (error ≡ Refused) × ((command : Command) → code ≡ code_of command → is_allowed command mode ≡ false)) }
    {
        let command = Command::try_from(code)?;
        if command.is_allowed(mode) {
            Ok(command)
        } else {
            Err(CommandError::Refused)
        }
    }
}
