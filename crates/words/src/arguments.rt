// The program's arguments: a strap, a size of FRAM, a limit, a size of bootloader FRAM and a file for port 1, each in decimal, or in
// hexadecimal after 0x; and whether bootloader FRAM is locked, in a word.

ghost use Rattle.std.specs.Prelude.{◌≤◌, IfOk};

use judging::Lengths;
use judging::fitting::set_up_fit;
use std::env::FillError;
use std::fmt;
use std::rt::Env;

// The longest argument that is read. A longer one stands for nothing.
const LONGEST: usize = 4096;

// What is taken where there is no such argument.
const STRAP: usize = 1;

const FRAM: usize = 65_536;

const LIMIT: usize = 1_028;

// The most bytes of an FRAM that there is room for.
const MOST_FRAM: usize = 262_144;

// What a wheel is made of.
#[derive(Clone, Copy)]
pub struct Arguments {
    pub strap: u8,
    pub fram: usize,
    pub limit: usize,
    pub bootloader: usize,
    pub locked: bool,
    // The file descriptor for replies on port 1, if there is one.
    pub port1: Option<i32>,
    ghost fram_has_room: { fram ≤ 262144 },
    ghost bootloader_has_room: { bootloader ≤ 262144 },
}

// The argument that will not do.
#[derive(Clone, Copy, PartialEq, Eq)]
pub enum ArgumentError {
    TooMany,
    BadStrap,
    BadFram,
    BadLimit,
    BadBootloader,
    BadLock,
    BadPort1,
}

impl fmt::Display for ArgumentError {
    fn fmt<W: fmt::Write>(&self, f: &mut fmt::Formatter<W>) -> fmt::Result {
        match self {
            ArgumentError::TooMany => write!(f, "there are at most six arguments"),
            ArgumentError::BadStrap => write!(f, "STRAP is a number from 0 to 7"),
            ArgumentError::BadFram => { write!(f, "FRAM is a multiple of 256 from 256 to 262144") }
            ArgumentError::BadLimit => write!(f, "LIMIT is a number from 260 to 1028"),
            ArgumentError::BadBootloader => {
                write!(f, "BOOTLOADER is a multiple of 256 from 256 to 262144")
            }
            ArgumentError::BadLock => write!(f, "LOCK is locked or unlocked"),
            ArgumentError::BadPort1 => write!(f, "PORT1 is a number from 3 to 1023"),
        }
    }
}

// The number that a text is, if it is one.
fn parsed(text: &[u8]) -> Option<usize> {
    let text = str::from_utf8(text).ok()?;
    let (digits, radix) = match text.strip_prefix("0x") {
        Some(digits) => (digits, 16),
        None => (text, 10),
    };
    // A sign is no digit here.
    if digits.starts_with('+') {
        return None;
    }
    usize::from_str_radix(digits, radix).ok()
}

// The number that an argument is, `None` where there is no argument at this place, and this error where it is no number.
fn number(
    rt: &impl Env,
    place: usize,
    error: ArgumentError,
) -> Result<Option<usize>, ArgumentError> {
    let mut text = [0u8; LONGEST];
    match rt.arg(place, &mut text) {
        Ok(length) => Ok(Some(parsed(&text[..length]).ok_or(error)?)),
        Err(FillError::NotPresent) => Ok(None),
        Err(FillError::TooLong) => Err(error),
    }
}

// A size of FRAM that there is room for. Which of these FRAM cannot have is for the unit to say.
fn size(rt: &impl Env, place: usize, error: ArgumentError) -> Result<usize, ArgumentError>
    ensures { IfOk result (λ size. size ≤ 262144) }
{
    match number(rt, place, error)?.unwrap_or(FRAM) {
        size @ 0..=MOST_FRAM => Ok(size),
        _ => Err(error),
    }
}

// Whether bootloader FRAM is locked.
fn locked(rt: &impl Env) -> Result<bool, ArgumentError> {
    let mut text = [0u8; LONGEST];
    match rt.arg(5, &mut text) {
        Ok(length) => match &text[..length] {
            b"unlocked" => Ok(false),
            b"locked" => Ok(true),
            _ => Err(ArgumentError::BadLock),
        },
        Err(FillError::NotPresent) => Ok(false),
        Err(FillError::TooLong) => Err(ArgumentError::BadLock),
    }
}

// The file descriptor for replies on port 1, if there is one: none of the standard ones.
fn port1(rt: &impl Env) -> Result<Option<i32>, ArgumentError> {
    match number(rt, 6, ArgumentError::BadPort1)? {
        None => Ok(None),
        Some(number @ 3..=1023) => Ok(Some(number as i32)),
        Some(_) => Err(ArgumentError::BadPort1),
    }
}

// Asks the unit whether it can be set up so, with both FRAMs of this size; this error where it cannot.
fn judge(strap: u8, size: usize, limit: usize, error: ArgumentError) -> Result<(), ArgumentError> {
    let lengths = Lengths {
        edac: 1536,
        bootloader: size,
        bootloader_sums: size / 256,
        fram: size,
        sums: size / 256,
        diagnostics: 31,
        message0: 1033,
        reply0: 2068,
        message1: 1033,
        reply1: 2068,
    };
    set_up_fit(strap, limit, lengths).map_err(|_| error)
}

impl Arguments {
    // What the arguments ask for, or the error of the first that will not do: each is judged beside those before it, which will do.
    pub fn parsed(rt: &impl Env) -> Result<Arguments, ArgumentError> {
        if !is_missing(rt, 7) {
            return Err(ArgumentError::TooMany);
        }
        let strap = number(rt, 1, ArgumentError::BadStrap)?.unwrap_or(STRAP);
        let Ok(strap) = u8::try_from(strap) else {
            return Err(ArgumentError::BadStrap);
        };
        judge(strap, FRAM, LIMIT, ArgumentError::BadStrap)?;
        let fram = size(rt, 2, ArgumentError::BadFram)?;
        judge(strap, fram, LIMIT, ArgumentError::BadFram)?;
        let limit = number(rt, 3, ArgumentError::BadLimit)?.unwrap_or(LIMIT);
        judge(strap, fram, limit, ArgumentError::BadLimit)?;
        let bootloader = size(rt, 4, ArgumentError::BadBootloader)?;
        judge(strap, bootloader, limit, ArgumentError::BadBootloader)?;
        Ok(Arguments {
            strap,
            fram,
            limit,
            bootloader,
            locked: locked(rt)?,
            port1: port1(rt)?,
        })
    }
}

// Whether there is no argument at this place.
fn is_missing(rt: &impl Env, place: usize) -> bool {
    let mut text = [0u8; LONGEST];
    matches!(rt.arg(place, &mut text), Err(FillError::NotPresent))
}

// Whether the first argument asks for help.
pub fn is_help(rt: &impl Env) -> bool {
    let mut text = [0u8; LONGEST];
    match rt.arg(1, &mut text) {
        Ok(length) => matches!(&text[..length], b"--help" | b"-h"),
        Err(_) => false,
    }
}
