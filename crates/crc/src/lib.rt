// The CRC of the Nanosatellite Protocol (ICD 10.8) and the joining of sums (01, "The message"). There are three ways to sum:
// what is shorter than a chunk by the table (`by_table`); whole chunks by folding, and the sixteen bytes that it leaves by
// shifts (`few`); what is left behind whole chunks by the table again (`by_chunks`).
#![tactic(auto)]

mod table;

ghost use Rattle.std.specs.Prelude.{◌≡◌, ◌≤◌, length};
ghost use Rattle.crc.specs.Sum.{gate, bit_step, bit_steps, byte_step, sum_from, sum_of};
ghost use Rattle.crc.specs.Joining.{joining_of, join_of, power_of, product};

use folding::{CHUNK, reduce};
use table::TABLE;

// The sum of no bytes.
const START: u16 = 0xffff;

// x^16 + x^12 + x^5 + 1 with the low bit first.
const POLYNOMIAL: u16 = 0x8408;

// The power that shifts by nothing.
const NO_SHIFT: u16 = 0x8000;

// A sum after one more byte.
fn step(sum: u16, byte: u8) -> u16
    ensures { result ≡ byte_step sum byte }
{
    let mixed = sum ^ u16::from(byte);
    TABLE[usize::from(mixed % 256)] ^ (mixed >> 8)
}

// A sum after two more bytes. The high byte of a sum only moves down, so both are mixed in at once; and of what the first
// step makes, only the table's entry has a high byte left.
fn step_two(sum: u16, low: u8, high: u8) -> u16
    ensures { result ≡ byte_step (byte_step sum low) high }
{
    let mixed = sum ^ u16::from_le_bytes([low, high]);
    let first = TABLE[usize::from(mixed % 256)];
    let next = first ^ (mixed >> 8);
    TABLE[usize::from(next % 256)] ^ (first >> 8)
}

// The sum of `bytes` that goes on from `start`, by the table.
fn by_table(start: u16, bytes: &[u8]) -> u16
    ensures { result ≡ sum_from start bytes.now }
{
    let mut sum = start;
    let (pairs, last) = bytes.as_chunks::<2>();
    for [low, high] in pairs {
        sum = step_two(sum, *low, *high);
    }
    if let [byte] = last {
        step(sum, *byte)
    } else {
        sum
    }
}

// A sum after one more byte, with no table. `spread` has the eight digits that fall out: one of the low four comes back on
// the one four above it. Each brings the polynomial's three digits in, 8 and 3 places above its own and 4 below.
fn step_bare(sum: u16, byte: u8) -> u16
    ensures { result ≡ byte_step sum byte }
{
    let mixed = sum ^ u16::from(byte);
    let low = mixed % 256;
    let spread = low ^ (low * 16 % 256);
    (mixed >> 8) ^ ((spread * 256) ^ ((spread * 8) ^ (spread >> 4)))
}

// The sum of a few bytes, from 0.
fn few(bytes: &[u8]) -> u16
    ensures { result ≡ sum_from 0 bytes.now }
{
    let mut sum = 0;
    for byte in bytes {
        sum = step_bare(sum, *byte);
    }
    sum
}

// The same, by sixteen bytes that stand for all whole chunks, and behind them what is left of the bytes.
fn by_chunks(start: u16, bytes: &[u8]) -> u16
    requires { 64 ≤ length bytes.now }
    ensures { result ≡ sum_from start bytes.now }
{
    let (whole, rest) = bytes.split_at(bytes.len() / CHUNK * CHUNK);
    by_table(few(&reduce(start, whole)), rest)
}

// The sum of `bytes` that goes on from `start`.
pub fn sum_from(start: u16, bytes: &[u8]) -> u16
    ensures { result ≡ sum_from start bytes.now }
{
    if bytes.len() < CHUNK {
        by_table(start, bytes)
    } else {
        by_chunks(start, bytes)
    }
}

// The sum of `bytes`.
#[tactic(auto, unfolding(crate::specs::Sum::sum_of))]
pub fn sum(bytes: &[u8]) -> u16
    ensures { result ≡ sum_of bytes.now }
{
    sum_from(START, bytes)
}

// A stretch of bytes by its sum and its length alone.
#[derive(Clone, Copy)]
pub struct Part {
    pub sum: u16,
    pub len: u32,
}

// Why two parts are not joined: no part is so long as both are together.
#[derive(Clone, Copy, PartialEq, Eq)]
pub enum JoinError {
    TooLong,
}

// `value` where the digit is 1, else nothing.
fn gated(value: u16, digit: u16) -> u16
    ensures { result ≡ gate value digit }
{
    if digit == 1 { value } else { 0 }
}

#[tactic(auto, unfolding(crate::specs::Sum::bit_step))]
fn bit_step(sum: u16) -> u16
    ensures { result ≡ bit_step sum }
{
    (sum / 2) ^ gated(POLYNOMIAL, sum % 2)
}

// The shift by one byte.
fn byte_shift(sum: u16) -> u16
    ensures { result ≡ bit_steps 8 sum }
{
    let mut shifted = sum;
    for _ in 0..u8::BITS {
        shifted = bit_step(shifted);
    }
    shifted
}

// A sum carried over the gap that `power` stands for.
fn carry(sum: u16, power: u16) -> u16
    ensures { result ≡ product 16 sum power }
{
    let mut carried = 0;
    let mut digits = power;
    for _ in 0..u16::BITS {
        carried = bit_step(carried) ^ gated(sum, digits % 2);
        digits /= 2;
    }
    carried
}

// The power of the one-byte shift that carries a sum over n zero bytes, by halving n.
fn power(n: u32) -> u16
    ensures { result ≡ power_of n }
{
    if n == 0 {
        return NO_SHIFT;
    }
    let half = power(n / 2);
    let square = carry(half, half);
    if n % 2 == 0 {
        square
    } else {
        byte_shift(square)
    }
}

// Two parts, one after the other, as one.
pub fn join(a: Part, b: Part) -> Result<Part, JoinError>
    ensures { joining_of result ≡ join_of a b }
{
    let len = a.len.checked_add(b.len).ok_or(JoinError::TooLong)?;
    let carried = carry(a.sum ^ START, power(b.len));
    Ok(Part {
        sum: carried ^ b.sum,
        len,
    })
}
