// Many bytes a call. Bytes that close no run that is to be judged are heard in one go; the one that ends them is a step of the unit,
// whose answer is never 0, so that there is just one.
#![tactic(auto)]

ghost use Rattle.std.specs.Prelude.{◌≡◌, ◌≤◌};
ghost use Rattle.blocks.specs.Fram.{kept};
ghost use Rattle.ports.specs.Sides.{both};
ghost use Rattle.commanding.specs.World.{world};
ghost use Rattle.streaming.specs.Streams.{stream_of, steps_of, taken_of, refused_of, quieting_of, quietly_of};

use answer::Answer;
use commanding::Stepped;
use judging::fitting::step_fit;
use judging::{Lengths, Unit};
use line::packing::SHORTEST_MESSAGE;
use listening::listen_on;
use ports::{Sending, Side};

// How many bytes were taken, and what the last of them gave back.
#[derive(Clone, Copy)]
pub struct Many {
    pub last: Stepped,
    pub taken: usize,
}

// The unit after bytes that were only heard, and how many there were.
#[derive(Clone, Copy)]
struct Quiet {
    pub unit: Unit,
    pub taken: usize,
}

// So many bytes, all only taken.
fn only_taken(unit: Unit, taken: usize) -> Many
    ensures { result ≡ taken_of unit taken }
{
    Many {
        last: Stepped::quiet(unit, Answer::Taken),
        taken,
    }
}

// A call that is refused loses its first byte, if it has one.
fn refused(unit: Unit, answer: Answer, bytes: usize) -> Many
    ensures { result ≡ refused_of unit answer bytes }
{
    if bytes == 0 {
        return only_taken(unit, 0);
    }
    Many {
        last: Stepped::quiet(unit, answer),
        taken: 1,
    }
}

// Bytes heard on the port of this number, up to one that closes a run that is to be judged.
fn quietly(unit: Unit, port: u8, bytes: &[u8], message0: &mut [u8], message1: &mut [u8]) -> Quiet
    requires { unit.limit ≤ 1028 }
    ensures { quieting_of result (both message0.new message1.new)
        ≡ quietly_of unit port bytes.now (both message0.old message1.old) }
{
    let side = Side::from(port);
    let largest = unit.limit + SHORTEST_MESSAGE as u16;
    let was = unit.ports.of(side);
    let got = listen_on(side, largest, was, bytes, message0, message1);
    let ports = unit.ports.with(side, got.port);
    Quiet {
        unit: Unit { ports, ..unit },
        taken: got.taken,
    }
}

// Bytes that came in on a port, up to the first answer other than 0. `sending` says which ports are sending now.
pub fn steps(
    unit: Unit,
    port: u8,
    bytes: &[u8],
    sending: Sending,
    edac: &mut [u8],
    bootloader: &mut [u8],
    bootloader_sums: &mut [u16],
    fram: &mut [u8],
    sums: &mut [u16],
    diagnostics: &mut [u32],
    message0: &mut [u8],
    reply0: &mut [u8],
    message1: &mut [u8],
    reply1: &mut [u8],
) -> Many
    ensures { stream_of result (world edac.new (kept bootloader.new bootloader_sums.new) (kept fram.new sums.new) diagnostics.new message0.new reply0.new message1.new reply1.new)
        ≡ steps_of unit port bytes.now sending (world edac.old (kept bootloader.old bootloader_sums.old) (kept fram.old sums.old) diagnostics.old message0.old reply0.old message1.old reply1.old) }
{
    let lengths = Lengths {
        edac: edac.len(),
        bootloader: bootloader.len(),
        bootloader_sums: bootloader_sums.len(),
        fram: fram.len(),
        sums: sums.len(),
        diagnostics: diagnostics.len(),
        message0: message0.len(),
        reply0: reply0.len(),
        message1: message1.len(),
        reply1: reply1.len(),
    };
    // Judged here too, and not by the step alone, so that the compiler can tell there what has passed already.
    if let Err(answer) = step_fit(unit, port, lengths) {
        return refused(unit, answer, bytes.len());
    }
    let heard = quietly(unit, port, bytes, message0, message1);
    let Some(byte) = bytes.get(heard.taken) else {
        return only_taken(heard.unit, heard.taken);
    };
    let last = unit::step(
        heard.unit,
        port,
        *byte,
        sending,
        edac,
        bootloader,
        bootloader_sums,
        fram,
        sums,
        diagnostics,
        message0,
        reply0,
        message1,
        reply1,
    );
    Many {
        last,
        taken: heard.taken + 1,
    }
}
