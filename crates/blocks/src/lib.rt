// FRAM with one kept sum for each block of 256 bytes: bootloader FRAM and user FRAM are each one.
#![tactic(auto)]

pub mod cost;
pub mod fram;
mod gap;

ghost use Rattle.std.specs.Prelude.{◌≡◌, ◌+◌, ◌≤◌, length};
ghost use Rattle.crc.specs.Sum.{sum_of};
ghost use Rattle.blocks.specs.Fram.{block, block_start, fresh_sums, refreshed, kept, store_of, range_sum, place_of};
ghost use Rattle.blocks.specs.Lent.{kept_in, SameLoans};

use crate::fram::Fram;
use crate::gap::across;
use memory::bytes::put;

// How many bytes a block has.
pub const BLOCK_SIZE: usize = 256;

// The place of a range of `count` bytes from `address` on, in a memory of `len` bytes whose first has the address `first`, if all of it is inside.
pub fn place(first: u32, len: usize, address: u32, count: usize) -> Option<usize>
    ensures { result ≡ place_of first len address count }
{
    let at = address.checked_sub(first)? as usize;
    let last = len.checked_sub(count)?;
    if at <= last { Some(at) } else { None }
}

// The CRC of block k as it stands.
fn block_sum(fram: &[u8], k: usize) -> u16
    requires { block_start (k + 1) ≤ length fram.now }
    ensures { result ≡ sum_of (block fram.now k) }
{
    let from = k * BLOCK_SIZE;
    let to = from + BLOCK_SIZE;
    crc::sum(&fram[from..to])
}

// Sets the sum of every block that a run of `count` bytes from `at` on touches.
fn refresh(fram: &[u8], sums: &mut [u16], at: usize, count: usize)
    requires { (at + count ≤ length fram.now) × (length fram.now ≡ block_start (length sums.old)) }
    ensures { sums.new ≡ refreshed fram.now at count 0 sums.old }
{
    // A run of no bytes touches no block, though it may stand inside one.
    if count == 0 {
        return;
    }
    let end = at + count;
    for k in at / BLOCK_SIZE..end.div_ceil(BLOCK_SIZE) {
        sums[k] = block_sum(fram, k);
    }
}

// Computes all sums: the whole memory touches every block.
pub fn compute_sums(fram: &[u8], sums: &mut [u16])
    requires { length fram.now ≡ block_start (length sums.old) }
    ensures { sums.new ≡ fresh_sums fram.now }
{
    refresh(fram, sums, 0, fram.len());
}

impl Fram<'_, '_> {
    // Stores `bytes` from `at` on, and sets the sum of every block that they touch.
    pub fn store(&mut self, at: usize, bytes: &[u8])
        requires { at + length bytes.now ≤ length self.old.bytes.now }
        ensures stored { kept_in self.new ≡ store_of (kept_in self.old) at bytes.now }
        ensures lent { SameLoans self.new self.old }
    {
        // Lent on by itself, since what is lent from inside a struct to be read alone is not known to be unchanged afterwards.
        let held = &mut *self.bytes;
        put(bytes, held, at);
        refresh(held, self.sums, at, bytes.len());
    }
}

// The CRC of the bytes from `from` up to `to`, `to` not included. Blocks wholly covered lie in a row between two stretches
// of bytes, and enter by their kept sums. It takes the two parts: a `Fram` would ask for memory that may be written.
pub fn range_sum(fram: &[u8], sums: &[u16], from: usize, to: usize) -> u16
    requires { (from ≤ to) × (to ≤ length fram.now) × (length fram.now ≡ block_start (length sums.now)) }
    ensures { result ≡ range_sum (kept fram.now sums.now) from to }
{
    let first = from.div_ceil(BLOCK_SIZE);
    let end = to / BLOCK_SIZE;
    if end <= first {
        return crc::sum(&fram[from..to]);
    }
    let head_end = first * BLOCK_SIZE;
    let tail = end * BLOCK_SIZE;
    let head = crc::sum(&fram[from..head_end]);
    let covered = across(head, &sums[first..end]);
    crc::sum_from(covered, &fram[tail..to])
}
