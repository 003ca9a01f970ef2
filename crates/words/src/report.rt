// What is said on standard error, and the help. What cannot be written there is lost: nobody is left to be told.
use crate::arguments::ArgumentError;
use std::fmt;
use std::fmt::InlineText;
use std::io::{Error, ErrorKind};

// The diagnostic that set-up writes: it shows whether bootloader FRAM is locked.
const FRAM_STATUS: usize = 0x06;

const USAGE: &str = "usage: wheel [STRAP [FRAM [LIMIT [BOOTLOADER [LOCK [PORT1]]]]]]";

const HELP: &str =
    "A reaction wheel's command unit. Port 0 is standard input and standard output. On port 1 nothing comes in, and what leaves\n\
    there is written to a file or told. Neither is ever sending. The unit hears 0x60+STRAP, which it answers on port 0, and\n\
    0x40+STRAP, which it answers on port 1. At the end it says on standard error how often each answer came, which\n\
    diagnostics moved, whether bootloader FRAM is locked, the largest cost of a CRC command, as a count of bytes and blocks,\n\
    what was written on port 0, and how many replies left on port 1.\n\
    \x20 STRAP       0 to 7; 1 if there is none\n\
    \x20 FRAM        bytes of user FRAM, a multiple of 256 from 256 to 262144; 65536 if there is none\n\
    \x20 LIMIT       the most data bytes of a message, 260 to 1028; 1028 if there is none\n\
    \x20 BOOTLOADER  bytes of bootloader FRAM, as those of FRAM\n\
    \x20 LOCK        whether bootloader FRAM is locked: locked, or unlocked, as it is if there is none\n\
    \x20 PORT1       the number of an open file descriptor, 3 to 1023, for replies on port 1; if there is none, a line on\n\
    \x20             standard error tells of each\n\
    Numbers are decimal, or hexadecimal after 0x. A PING and its reply:\n\
    \x20 printf '\\xc0\\x61\\x11\\x80\\xe3\\x6e\\xc0' | ./run | od -An -tx1z";

// Where replies are written: on standard output those of port 0, in an open file, known by its number, those of port 1.
#[derive(Clone, Copy, PartialEq, Eq)]
pub enum Output {
    Standard,
    File(i32),
}

impl fmt::Display for Output {
    fn fmt<W: fmt::Write>(&self, f: &mut fmt::Formatter<W>) -> fmt::Result {
        match self {
            Output::Standard => write!(f, "standard output"),
            Output::File(_) => write!(f, "the file of port 1"),
        }
    }
}

// How many bytes were written on port 0 and how many of these were FEND, and how many replies left on port 1.
#[derive(Clone, Copy)]
pub struct Sent {
    pub bytes: u64,
    pub fends: u64,
    pub left1: u64,
}

// How often each answer came, by its number, and the largest cost of a CRC.
#[derive(Clone, Copy)]
pub struct Tally {
    answers: [u64; 30],
    largest: u32,
}

impl Tally {
    pub fn fresh() -> Tally {
        Tally {
            answers: [0; 30],
            largest: 0,
        }
    }

    // Counts one more answer of this number, and what the command cost.
    pub fn count(&mut self, number: u8, cost: u32) {
        if let Some(times) = self.answers.get_mut(usize::from(number)) {
            *times = times.wrapping_add(1);
        }
        self.largest = self.largest.max(cost);
    }
}

pub fn help(rt: &impl Print) {
    let _ = rt.println(USAGE);
    let _ = rt.println(HELP);
}

// Of an argument that will not do.
pub fn refused(rt: &impl Eprint, error: ArgumentError) {
    let _ = eprintln!(rt; "wheel: {error}; {}", USAGE);
}

// A read or a write that failed, and what could not be done.
fn failed(rt: &impl Eprint, file: impl fmt::Display + Drop, what: &str, error: Error) {
    if error.kind() == ErrorKind::WouldBlock {
        let _ = eprintln!(rt;
            "wheel: {file} would block: O_NONBLOCK is set on it; open it without"
        );
        return;
    }
    // The error's own words are the system's, and then its number in brackets, which is not said.
    let text = InlineText::<128>::of(error);
    let all = text.as_str();
    let why = all
        .split_once(" (os error ")
        .map_or(all, |(words, _)| words);
    let _ = eprintln!(rt; "wheel: cannot {what} {file}: {why}");
}

pub fn read_failed(rt: &impl Eprint, error: Error) {
    failed(rt, "standard input", "read", error);
}

pub fn write_failed(rt: &impl Eprint, output: Output, error: Error) {
    failed(rt, output, "write", error);
}

pub fn takes_nothing(rt: &impl Eprint, output: Output) {
    let _ = eprintln!(rt; "wheel: {output} takes no bytes");
}

// A reply that left on port 1, where there is no file for it.
pub fn left_on_port1(rt: &impl Eprint, length: usize) {
    let _ = eprintln!(rt; "wheel: a reply of {length} bytes left on port 1");
}

// How often each answer came that did, by its number.
fn answers(rt: &impl Eprint, answers: &[u64; 30]) {
    for (number, times) in answers.iter().enumerate().filter(|(_, times)| **times > 0) {
        let _ = eprintln!(rt; "answer {number}: {times}");
    }
}

// The diagnostics that moved. All were 0 when the wheel was set up but the FRAM status, of which the lock is said in words.
fn diagnostics(rt: &impl Eprint, diagnostics: &[u32; 31]) {
    for (channel, value) in diagnostics
        .iter()
        .enumerate()
        .filter(|(channel, value)| *channel != FRAM_STATUS && **value > 0)
    {
        let _ = eprintln!(rt; "diagnostic {channel}: {value}");
    }
}

// What is said at the end. A reply has two FENDs, its first byte and its last.
pub fn ended(rt: &impl Eprint, tally: &Tally, values: &[u32; 31], locked: bool, sent: Sent) {
    answers(rt, &tally.answers);
    diagnostics(rt, values);
    let lock = if locked { "locked" } else { "unlocked" };
    let _ = eprintln!(rt; "bootloader FRAM: {lock}");
    let _ = eprintln!(rt; "largest cost of a CRC: {}", tally.largest);
    let _ = eprintln!(rt; "replies written on port 0: {}", sent.fends / 2);
    let _ = eprintln!(rt; "bytes written on port 0: {}", sent.bytes);
    let _ = eprintln!(rt; "replies left on port 1: {}", sent.left1);
}
