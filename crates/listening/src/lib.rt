// Bytes that come in on a port, as many in one go as close no run that is to be judged.
#![tactic(auto)]

ghost use Rattle.std.specs.Prelude.{◌≡◌, ◌&&◌, not, ◌-◌, ◌≤◌, eqb, length};
ghost use Rattle.line.specs.Framing.{fend, fesc};
ghost use Rattle.line.specs.declared.receiver.Place.TheVariants.{Run};
ghost use Rattle.ports.specs.declared.Port.TheVariants.{Hearing};
ghost use Rattle.ports.specs.Sides.{both};
ghost use Rattle.listening.specs.Listening.{closes, listening_of, behind, listen_of, listen_on_of};

use line::framing::{FEND, FESC};
use line::receiver::{Place, Receiver, receive};
use ports::{Port, Side, hear, is_open};

// The port after some bytes, and how many there were.
#[derive(Clone, Copy)]
pub struct Listened {
    pub port: Port,
    pub taken: usize,
}

// The port after some bytes, and the bytes behind them.
#[derive(Clone, Copy)]
struct Left<'a> {
    pub port: Port,
    pub rest: &'a [u8],
}

// The count of a run after some bytes of it, and the bytes behind them.
#[derive(Clone, Copy)]
struct Stretch<'a> {
    pub count: usize,
    pub rest: &'a [u8],
}

// Whether a byte stands for itself in a run.
fn is_plain(byte: u8) -> bool
    ensures { result ≡ (not (eqb byte fend) && not (eqb byte fesc)) }
{
    byte != FEND && byte != FESC
}

// Whether a byte closes a run in which any byte came.
fn is_closing(port: Port, byte: u8) -> bool
    ensures { result ≡ closes port byte }
{
    byte == FEND && is_open(port)
}

// The first bytes of a run that stand for themselves. Most bytes are such, and a loop of their own asks less of each.
fn plain<'a>(largest: u16, mut count: usize, bytes: &'a [u8], message: &mut [u8]) -> Stretch<'a>
    ensures { (length result.rest.now ≤ length bytes.now)
        × (listen_of largest (Hearing (record { place = Run; count = count })) bytes.now message.old
        ≡ behind (length bytes.now - length result.rest.now) (listen_of largest (Hearing (record { place = Run; count = result.count })) result.rest.now message.new)) }
{
    for (taken, byte) in bytes.iter().enumerate() {
        if !is_plain(*byte) {
            return Stretch {
                count,
                rest: &bytes[taken..],
            };
        }
        let run = Receiver {
            place: Place::Run,
            count,
        };
        count = receive(largest, run, *byte, message).receiver.count;
    }
    Stretch { count, rest: &[] }
}

// The same where a run is open on a port, else none. Each place has an arm of its own: with one for the three a byte of a run that is thrown away
// takes 19 instructions, and so 13.
fn plain_on<'a>(largest: u16, port: Port, bytes: &'a [u8], message: &mut [u8]) -> Left<'a>
    ensures { (length result.rest.now ≤ length bytes.now)
        × (listen_of largest port bytes.now message.old
        ≡ behind (length bytes.now - length result.rest.now) (listen_of largest result.port result.rest.now message.new)) }
{
    match port {
        Port::Hearing(receiver) => match receiver.place {
            Place::Run => {
                let run = plain(largest, receiver.count, bytes, message);
                Left {
                    port: Port::Hearing(Receiver {
                        place: Place::Run,
                        count: run.count,
                    }),
                    rest: run.rest,
                }
            }
            Place::Fresh => Left { port, rest: bytes },
            Place::Escape => Left { port, rest: bytes },
            Place::Fault => Left { port, rest: bytes },
        },
        Port::Throwing(_) => Left { port, rest: bytes },
    }
}

// All bytes up to one that closes a run in which any byte came, or to the end.
fn listen(largest: u16, port: Port, bytes: &[u8], message: &mut [u8]) -> Listened
    ensures { listening_of result message.new ≡ listen_of largest port bytes.now message.old }
{
    let mut now = port;
    let mut rest = bytes;
    while let [byte, behind @ ..] = rest {
        if is_closing(now, *byte) {
            break;
        }
        let got = hear(largest, now, *byte, message);
        let left = plain_on(largest, got.port, behind, message);
        now = left.port;
        rest = left.rest;
    }
    Listened {
        port: now,
        taken: bytes.len() - rest.len(),
    }
}

// The same with the message buffers of both ports.
pub fn listen_on(
    side: Side,
    largest: u16,
    port: Port,
    bytes: &[u8],
    message0: &mut [u8],
    message1: &mut [u8],
) -> Listened
    ensures { listening_of result (both message0.new message1.new)
        ≡ listen_on_of side largest port bytes.now (both message0.old message1.old) }
{
    match side {
        Side::Zero => listen(largest, port, bytes, message0),
        Side::One => listen(largest, port, bytes, message1),
    }
}
