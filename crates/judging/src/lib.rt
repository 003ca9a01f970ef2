// One byte heard and judged: refused, taken, a run dropped, or a command to carry out. Of all that a unit is lent this room sees the
// lengths, and the message buffers alone.
#![tactic(auto)]

pub mod fitting;

ghost use Rattle.std.specs.Prelude.{◌≡◌, ◌≤◌, length};
ghost use Rattle.line.specs.Packing.{shortest_message, message_size};
ghost use Rattle.ports.specs.Sides.{both};
ghost use Rattle.judging.specs.Judging.{dropped_for, sound_of, heard_for, run_of, verdict_of, judging_of, judge_of};

use answer::Answer;
use carrying::Mode;
use line::packing::SHORTEST_MESSAGE;
use line::receiver::Heard;
use ports::{Ports, Side};

// What the unit is between two calls: its strap, the most data bytes of a message on its bus, its mode, whether bootloader FRAM is
// locked, the lengths of bootloader FRAM and of user FRAM that were set up, and its two ports.
#[derive(Clone, Copy)]
pub struct Unit {
    pub strap: u8,
    pub limit: u16,
    pub mode: Mode,
    pub locked: bool,
    pub bootloader_len: usize,
    pub fram_len: usize,
    pub ports: Ports,
}

// The lengths of what is lent to a call.
#[derive(Clone, Copy)]
pub struct Lengths {
    pub edac: usize,
    pub bootloader: usize,
    pub bootloader_sums: usize,
    pub fram: usize,
    pub sums: usize,
    pub diagnostics: usize,
    pub message0: usize,
    pub reply0: usize,
    pub message1: usize,
    pub reply1: usize,
}

// What a byte brings about.
#[derive(Clone, Copy)]
pub enum Verdict {
    // An answer, and nothing to do.
    Quiet(Answer),
    // A run dropped: its answer, and the diagnostic that counts it.
    Dropped(Answer, usize),
    // A command for this unit: a sound message of so many bytes, and the port on which it is answered.
    Command(usize, Side),
}

// A verdict with the unit afterwards.
#[derive(Clone, Copy)]
pub struct Judged {
    pub unit: Unit,
    pub verdict: Verdict,
}

// What was wrong with a run that is dropped.
#[derive(Clone, Copy)]
enum Wrong {
    Framing,
    Runt,
    Oversize,
    BadCrc,
}

// A message ends with its CRC, of two bytes.
const CRC_SIZE: usize = 2;

// Whether the CRC agrees.
fn is_sound(count: usize, message: &[u8]) -> bool
    requires { (shortest_message ≤ count) × (count ≤ message_size) × (message_size ≤ length message.now) }
    ensures { result ≡ sound_of count message.now }
{
    let end = count - CRC_SIZE;
    crc::sum(&message[..end]) == field::fields::word16(message, end)
}

// A run dropped, with the diagnostic of its port that counts it.
fn dropped_as(side: Side, wrong: Wrong) -> Verdict
    ensures { result ≡ dropped_for side wrong }
{
    let (answer, which) = match wrong {
        Wrong::Framing => (Answer::Framing, 0),
        Wrong::Runt => (Answer::Runt, 1),
        Wrong::Oversize => (Answer::Oversize, 2),
        Wrong::BadCrc => (Answer::BadCrc, 3),
    };
    Verdict::Dropped(answer, side.counts().first + which)
}

// A sound message by its address: a command, or not for this port.
fn heard_for(strap: u8, side: Side, destination: u8, count: usize) -> Verdict
    ensures { result ≡ heard_for strap side destination count }
{
    match ports::answered_on(strap, side, destination) {
        Some(telemetry) => Verdict::Command(count, telemetry),
        None => Verdict::Quiet(Answer::Elsewhere),
    }
}

// A run that is neither empty nor framing, where the largest message has so many bytes.
#[tactic(auto, unfolding(crate::specs::Judging::run_of))]
fn run(largest: u16, strap: u8, side: Side, count: usize, message: &[u8]) -> Verdict
    requires { (largest ≤ message_size) × (message_size ≤ length message.now) }
    ensures { result ≡ run_of largest strap side count message.now }
{
    if count < SHORTEST_MESSAGE {
        dropped_as(side, Wrong::Runt)
    } else if (largest as usize) < count {
        dropped_as(side, Wrong::Oversize)
    } else if !is_sound(count, message) {
        dropped_as(side, Wrong::BadCrc)
    } else {
        heard_for(strap, side, message[0], count)
    }
}

// The verdict on what was heard on a port, with the message buffer of that port.
#[tactic(auto, unfolding(crate::specs::Judging::verdict_of))]
fn verdict_of(largest: u16, strap: u8, side: Side, heard: Heard, message: &[u8]) -> Verdict
    requires { (largest ≤ message_size) × (message_size ≤ length message.now) }
    ensures { result ≡ verdict_of largest strap side heard message.now }
{
    match heard {
        Heard::Taken | Heard::Empty => Verdict::Quiet(Answer::Taken),
        Heard::Framing => dropped_as(side, Wrong::Framing),
        Heard::Message(count) => run(largest, strap, side, count, message),
    }
}

// One byte on a port, judged. `lengths` are those of all that is lent to the call.
pub fn judge(
    unit: Unit,
    port: u8,
    byte: u8,
    lengths: Lengths,
    message0: &mut [u8],
    message1: &mut [u8],
) -> Judged
    requires { (lengths.message0 ≡ length message0.old) × (lengths.message1 ≡ length message1.old) }
    ensures { judging_of result (both message0.new message1.new)
        ≡ judge_of unit port byte lengths (both message0.old message1.old) }
{
    match fitting::step_fit(unit, port, lengths) {
        Err(answer) => Judged {
            unit,
            verdict: Verdict::Quiet(answer),
        },
        Ok(()) => {
            let side = Side::from(port);
            let largest = unit.limit + SHORTEST_MESSAGE as u16;
            let got = ports::hear_on(side, largest, unit.ports, byte, message0, message1);
            let message = ports::heard_by(side, message0, message1);
            let verdict = verdict_of(largest, unit.strap, side, got.heard, message);
            Judged {
                unit: Unit {
                    ports: got.ports,
                    ..unit
                },
                verdict,
            }
        }
    }
}
