// What the rooms of the commands share: how much data a message may have, the two modes, and what a command comes to.
#![tactic(auto)]

ghost use Rattle.std.specs.Prelude.{◌≡◌};
ghost use Rattle.carrying.specs.Ending.{is_limit};

// The longest data field of a message, and the least that a bus may set as its limit.
const LONGEST_DATA: usize = 1028;

const LEAST_LIMIT: usize = 260;

// Whether a bus may set this limit.
pub fn is_limit(limit: usize) -> bool
    ensures { result ≡ is_limit limit }
{
    (LEAST_LIMIT..=LONGEST_DATA).contains(&limit)
}

// The unit's two modes.
#[derive(Clone, Copy, PartialEq, Eq)]
pub enum Mode {
    Bootloader,
    Application,
}

// Why a command is not done: refused, or an access to memory not fitted.
#[derive(Clone, Copy, PartialEq, Eq)]
pub enum CommandError {
    Refused,
    Unfitted,
}

// What a command comes to: done, with so many bytes of reply's data; refused; or an access to memory not fitted.
pub type Ended = Result<usize, CommandError>;

// What a command comes to, with the mode afterwards, and whether bootloader FRAM is locked.
#[derive(Clone, Copy)]
pub struct Carried {
    pub ended: Ended,
    pub mode: Mode,
    pub locked: bool,
}
