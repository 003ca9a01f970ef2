// Which bytes of EDAC memory are read-only (02, T-02, T-05; ICD 12.4), by runs of bytes that stand alike, worked from the list of rows.
ghost use Rattle.std.specs.Prelude.{◌≡◌, true, ◌<◌};
ghost use Rattle.memory.specs.Edac.{edac_size};
ghost use Rattle.read_only.specs.Runs.{run_of};
ghost use Rattle.read_only.specs.Listed.{touching, rising, run_in, apart, searchable};

use crate::list::READ_ONLY;
use memory::edac::EDAC_SIZE;

// Bytes that stand alike, and the address after the last of them. The address says something of either kind of bytes, so this is no `Option`.
#[derive(Clone, Copy)]
pub struct Run {
    pub read_only: bool,
    pub end: usize,
}

// Where a row, and what touches it, ends: `after` the row, unless the next one begins there, and then at `stop`.
fn touching_end(after: usize, next: usize, stop: usize) -> usize
    ensures { result ≡ touching after next stop }
{
    if after < next { after } else { stop }
}

// Of an address below `end`, by rows below `end`: from the last one back, to the first that does not begin behind the address.
fn walked(rows: &[[u16; 2]], end: usize, at: usize) -> Run
    requires { (rising 0 rows.now end ≡ true) × (at < end) }
    ensures { result ≡ run_in rows.now end at }
{
    let mut next = end; // where the row after this one begins
    let mut stop = end; // where that one, and what touches it, ends
    let mut rest = rows;
    while let [left @ .., row] = rest {
        let first = usize::from(row[0]);
        let last = usize::from(row[1]);
        stop = touching_end(last + 1, next, stop);
        if first <= at {
            let read_only = at <= last;
            let end = if read_only { stop } else { next };
            return Run { read_only, end };
        }
        next = first;
        rest = left;
    }
    Run {
        read_only: false,
        end: next,
    }
}

// Of an address below `end`, by rows below `end`: they are cut before the one at `place`, and the part that the address is in is walked.
fn halved(rows: &[[u16; 2]], place: usize, end: usize, at: usize) -> Run
    requires { (rising 0 rows.now end ≡ true) × (apart place rows.now ≡ true) × (at < end) }
    ensures { result ≡ run_in rows.now end at }
{
    let (before, behind) = rows.split_at(place);
    let middle = usize::from(behind[0][0]);
    if at < middle {
        walked(before, middle, at)
    } else {
        walked(behind, end, at)
    }
}

// Of an address, by a list of rows, which is halved twice. Of the 39 rows that leaves 10 at most to walk: so short a walk over a constant list
// the compiler turns into comparisons, and the list is not laid down in memory at each call. By `partition_point` over the list as a `static` a
// question takes 50 instructions in the mean of all addresses on x86-64, and 29 so.
fn searched(rows: &[[u16; 2]], at: usize) -> Run
    requires { (searchable rows.now ≡ true) × (at < edac_size) }
    ensures { result ≡ run_in rows.now edac_size at }
{
    let (before, behind) = rows.split_at(19);
    let middle = usize::from(behind[0][0]);
    if at < middle {
        halved(before, 9, middle, at)
    } else {
        halved(behind, 10, EDAC_SIZE, at)
    }
}

// The bytes that stand alike from an address on. The address goes through the 16 bits of the list's own, so that the wheel's processor, which
// has 32, compares it in one word.
pub fn run_from(at: usize) -> Run
    requires { at < edac_size }
    ensures { result ≡ run_of at }
{
    searched(&READ_ONLY, usize::from(at as u16))
}
