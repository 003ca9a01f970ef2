// The refusals of a call, lowest number first.
ghost use Rattle.std.specs.Prelude.{◌≡◌, ◌&&◌, eqb};
ghost use Rattle.blocks.specs.Fram.{block_start};
ghost use Rattle.judging.specs.Fitting.{fram_fits, sums_fit, fram_as_set_up, frams_as_set_up, too_short, limit_fit, port_fit, record_fit, lengths_fit, set_up_fit, step_fit};

use crate::{Lengths, Unit};
use answer::Answer;
use blocks::BLOCK_SIZE;
use carrying::is_limit;
use line::packing::{MESSAGE_SIZE, REPLY_SIZE};
use memory::counts::CHANNELS;
use memory::edac::EDAC_SIZE;
use ports::count_of;

// Whether a call can be served, or the answer that refuses it.
pub type Fit = Result<(), Answer>;

// The largest strap, and the larger number of a port.
const LAST_STRAP: u8 = 7;

const LAST_PORT: u8 = 1;

// The least and the most bytes of an FRAM.
const LEAST_FRAM: usize = 256;

const MOST_FRAM: usize = 262_144;

// The largest count that a receiver has, whatever its limit.
const LARGEST_COUNT: usize = 1034;

// Whether an FRAM can have this length.
fn fram_fits(size: usize) -> bool
    ensures { result ≡ fram_fits size }
{
    (LEAST_FRAM..=MOST_FRAM).contains(&size) && size % BLOCK_SIZE == 0
}

// Whether there is one sum for each block.
fn sums_fit(sums: usize, fram: usize) -> bool
    ensures { result ≡ eqb (block_start sums) fram }
{
    fram % BLOCK_SIZE == 0 && fram / BLOCK_SIZE == sums
}

// Whether there is one sum for each block of both FRAMs.
fn all_sums_fit(lengths: Lengths) -> bool
    ensures { result ≡ sums_fit lengths }
{
    sums_fit(lengths.bootloader_sums, lengths.bootloader) && sums_fit(lengths.sums, lengths.fram)
}

// Whether a port has a buffer that is too short.
fn too_short(message: usize, reply: usize) -> bool
    ensures { result ≡ too_short message reply }
{
    message < MESSAGE_SIZE || reply < REPLY_SIZE
}

// 20 to 25, and then what comes after them.
#[tactic(auto, unfolding(crate::specs::Fitting::lengths_fit))]
fn lengths_fit(strap: u8, fits: bool, lengths: Lengths, next: Fit) -> Fit
    ensures { result ≡ lengths_fit strap fits lengths next }
{
    if LAST_STRAP < strap {
        return Err(Answer::BadStrap);
    }
    if lengths.edac != EDAC_SIZE {
        return Err(Answer::BadEdac);
    }
    if !fits {
        return Err(Answer::BadFram);
    }
    if !all_sums_fit(lengths) {
        return Err(Answer::BadSums);
    }
    if lengths.diagnostics != CHANNELS {
        return Err(Answer::BadDiagnostics);
    }
    if too_short(lengths.message0, lengths.reply0) || too_short(lengths.message1, lengths.reply1) {
        return Err(Answer::BadBuffers);
    }
    next
}

// 29.
fn limit_fits(limit: usize) -> Fit
    ensures { result ≡ limit_fit limit }
{
    if is_limit(limit) {
        Ok(())
    } else {
        Err(Answer::BadLimit)
    }
}

// Whether both FRAMs can have these lengths.
fn frams_fit(bootloader: usize, fram: usize) -> bool
    ensures { result ≡ (fram_fits bootloader && fram_fits fram) }
{
    fram_fits(bootloader) && fram_fits(fram)
}

#[tactic(auto, unfolding(crate::specs::Fitting::set_up_fit))]
pub fn set_up_fit(strap: u8, limit: usize, lengths: Lengths) -> Fit
    ensures { result ≡ set_up_fit strap limit lengths }
{
    let fits = frams_fit(lengths.bootloader, lengths.fram);
    lengths_fit(strap, fits, lengths, limit_fits(limit))
}

// Whether an FRAM has the length that was set up.
fn fram_as_set_up(size: usize, set_up: usize) -> bool
    ensures { result ≡ fram_as_set_up size set_up }
{
    fram_fits(size) && size == set_up
}

// Whether both FRAMs have the lengths that were set up.
fn frams_as_set_up(unit: Unit, lengths: Lengths) -> bool
    ensures { result ≡ frams_as_set_up unit lengths }
{
    fram_as_set_up(lengths.bootloader, unit.bootloader_len)
        && fram_as_set_up(lengths.fram, unit.fram_len)
}

// 27, then 29.
fn port_fits(port: u8, limit: u16) -> Fit
    ensures { result ≡ port_fit port (limit_fit limit) }
{
    if LAST_PORT < port {
        return Err(Answer::BadPort);
    }
    limit_fits(limit as usize)
}

// 26 for either port, then 27 and 29.
fn record_fits(unit: Unit, port: u8) -> Fit
    ensures { result ≡ record_fit unit port }
{
    if LARGEST_COUNT < count_of(unit.ports.port0) || LARGEST_COUNT < count_of(unit.ports.port1) {
        return Err(Answer::BadCount);
    }
    port_fits(port, unit.limit)
}

#[tactic(auto, using(crate::proofs::Serving::and_then), unfolding(crate::specs::Fitting::step_fit))]
pub fn step_fit(unit: Unit, port: u8, lengths: Lengths) -> Fit
    ensures { result ≡ step_fit unit port lengths }
{
    // The record is tested when what is lent has passed: as a value of `next`, made before, it would cost each byte more.
    let as_set_up = frams_as_set_up(unit, lengths);
    lengths_fit(unit.strap, as_set_up, lengths, Ok(()))?;
    record_fits(unit, port)
}
