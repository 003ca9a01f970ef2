// Sums of outside vectors, and of long inputs against a sum worked out bit by bit. Each line of the output names a vector
// and gives what came, what should come, and whether they agree.
#![tactic(auto)]

use crc::{JoinError, Part};
use std::fmt::Display;
use std::io;

const NEUTRAL: Part = Part {
    sum: 0xffff,
    len: 0,
};

// The part that is 123456789.
const CHECK: Part = Part {
    sum: 0x6f91,
    len: 9,
};

const FF: Part = Part {
    sum: 0x00ff,
    len: 1,
};

const LONGEST: Part = Part {
    sum: 0x1234,
    len: 0xffff_ffff,
};

// One bit of the fragment of ICD 10.8, as it stands there.
fn one_bit(sum: u16, byte: u8) -> u16 {
    let mixed = sum ^ u16::from(byte);
    if mixed % 2 == 1 {
        (sum / 2) ^ 0x8408
    } else {
        sum / 2
    }
}

fn one_byte(sum: u16, byte: u8) -> u16 {
    let mut fed = sum;
    let mut rest = byte;
    for _ in 0..u8::BITS {
        fed = one_bit(fed, rest);
        rest /= 2;
    }
    fed
}

fn bit_by_bit(bytes: &[u8]) -> u16 {
    let mut sum: u16 = 0xffff;
    for byte in bytes {
        sum = one_byte(sum, *byte);
    }
    sum
}

// A byte that differs from place to place and from block to block.
fn pattern(place: usize) -> u8 {
    ((place % 256 * 7 + place / 256 % 256 * 31) % 256) as u8
}

fn fill(bytes: &mut [u8]) {
    for (i, byte) in bytes.iter_mut().enumerate() {
        *byte = pattern(i);
    }
}

fn verdict(agrees: bool) -> &'static str {
    if agrees { "ok" } else { "BAD" }
}

fn numbers(
    rt: &impl Print,
    name: impl Display + Drop,
    came: u64,
    due: u64,
    width: usize,
) -> io::Result<()> {
    let agrees = verdict(came == due);
    println!(rt; "{name} {came:0width$x} {due:0width$x} {agrees}")
}

fn vector(rt: &impl Print, name: &str, bytes: &[u8], due: u16) -> io::Result<()> {
    numbers(rt, name, u64::from(crc::sum(bytes)), u64::from(due), 4)
}

// The answer, the sum and the length as one number, so that one line compares all three.
fn shown(answer: u16, sum: u16, len: u32) -> u64 {
    (u64::from(answer) * 65536 + u64::from(sum)) * 0x1_0000_0000 + u64::from(len)
}

fn joined(a: Part, b: Part) -> u64 {
    match crc::join(a, b) {
        Ok(p) => shown(0, p.sum, p.len),
        Err(JoinError::TooLong) => shown(36, 0, 0),
    }
}

fn join_vector(rt: &impl Print, name: &str, a: Part, b: Part, due: u64) -> io::Result<()> {
    numbers(rt, name, joined(a, b), due, 16)
}

fn long(rt: &impl Print, bytes: &[u8]) -> io::Result<()> {
    let length = bytes.len();
    let name = format_args!("{length} patterned bytes");
    numbers(
        rt,
        name,
        u64::from(crc::sum(bytes)),
        u64::from(bit_by_bit(bytes)),
        4,
    )
}

fn sums(rt: &impl Print) -> io::Result<()> {
    vector(rt, "MCRF4XX 123456789", b"123456789", 0x6f91)?;
    vector(rt, "P1", b"", 0xffff)?;
    vector(rt, "P2", b"\xff", 0x00ff)?;
    vector(rt, "P3", b"\xff\xff", 0x0000)?;
    vector(rt, "P4", b"\x00", 0x0f87)?;
    vector(rt, "P5", b"\x41\x11\x80", 0x6dd8)?;
    let came = crc::sum_from(crc::sum(b"1234"), b"56789");
    numbers(rt, "1234 then 56789", u64::from(came), 0x6f91, 4)
}

fn joins(rt: &impl Print) -> io::Result<()> {
    let whole = shown(0, 0x6f91, 9);
    join_vector(rt, "P8", FF, FF, shown(0, 0x0000, 2))?;
    join_vector(rt, "neutral first", NEUTRAL, CHECK, whole)?;
    join_vector(rt, "neutral second", CHECK, NEUTRAL, whole)?;
    let most = shown(0, 0x1234, 0xffff_ffff);
    join_vector(rt, "longest and neutral", LONGEST, NEUTRAL, most)?;
    join_vector(rt, "longest and one byte", LONGEST, FF, shown(36, 0, 0))
}

fn main(rt: HostRuntime) -> io::Result<()> {
    sums(&rt)?;
    joins(&rt)?;
    let mut bytes = [0; 65536];
    fill(&mut bytes);
    long(&rt, &bytes[0..1])?;
    long(&rt, &bytes[0..255])?;
    long(&rt, &bytes[0..256])?;
    long(&rt, &bytes[0..257])?;
    long(&rt, &bytes[0..4096])?;
    long(&rt, &bytes)
}
