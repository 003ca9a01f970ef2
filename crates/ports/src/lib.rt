// The two ports of a unit: which addresses each hears, its receiver, and what becomes of it when a reply leaves on it.
#![tactic(auto)]

ghost use Rattle.std.specs.Prelude.{◌≡◌, take};
ghost use Rattle.ports.specs.Sides.{side_of, number_of_side, both, of_side, put};
ghost use Rattle.ports.specs.Ports.{count_of, hearing_of, hear_of, hearing_on, hear_on_of, is_open, by_address, answered_on, counts_of, settlement, settle_of};

use line::framing::FEND;
use line::receiver::{Heard, Place, Receiver, receive};
use memory::counts::count_up;

// One of the two ports.
#[derive(Clone, Copy)]
pub enum Side {
    Zero,
    One,
}

// What a port is between two calls: its receiver, or the count of a run that is thrown away up to its FEND.
#[derive(Clone, Copy)]
pub enum Port {
    Hearing(Receiver),
    Throwing(usize),
}

// One of a thing for each port.
#[derive(Clone, Copy)]
pub struct Both<T> {
    pub port0: T,
    pub port1: T,
}

pub type Ports = Both<Port>;

// Whether each port is sending now.
pub type Sending = Both<bool>;

impl<T: Copy> Both<T> {
    // That of one port.
    pub fn of(self, side: Side) -> T
        ensures { result ≡ of_side side self }
    {
        match side {
            Side::Zero => self.port0,
            Side::One => self.port1,
        }
    }

    // The two with that of one port set, and the other as it was.
    pub fn with(self, side: Side, value: T) -> Self
        ensures { result ≡ put side self value }
    {
        match side {
            Side::Zero => Both {
                port0: value,
                ..self
            },
            Side::One => Both {
                port1: value,
                ..self
            },
        }
    }
}

// The port after one byte, and what was heard.
#[derive(Clone, Copy)]
pub struct Got {
    pub port: Port,
    pub heard: Heard,
}

// Both ports after one byte on one of them, and what was heard. It is no generic type with `Got`, whose field would be `port` of two ports.
#[derive(Clone, Copy)]
pub struct GotOn {
    pub ports: Ports,
    pub heard: Heard,
}

// The diagnostics of a port: the first of its four error counts, the runs thrown away, the replies lost.
#[derive(Clone, Copy)]
pub struct Counts {
    pub first: usize,
    pub thrown: usize,
    pub lost: usize,
}

// What becomes of the reply to a command: there is none, its port is sending and it is lost, or it leaves.
#[derive(Clone, Copy)]
pub enum Fate {
    Nothing,
    Lost,
    Leaves,
}

// The addresses of a unit with strap 0: heard on port 0 and answered on port 1, and so on.
const ON_0_TO_1: u16 = 0x40;

const ON_0_TO_0: u16 = 0x60;

const ON_1_TO_1: u16 = 0x50;

const ON_1_TO_0: u16 = 0x70;

// The port that a number names; a number that names none is refused elsewhere.
impl From<u8> for Side {
    ghost from_gives = { λ number side. side ≡ side_of number };

    fn from(number: u8) -> Side {
        if number == 0 { Side::Zero } else { Side::One }
    }
}

// The number of a port.
impl From<Side> for u8 {
    ghost from_gives = { λ side number. number ≡ number_of_side side };

    fn from(side: Side) -> u8 {
        match side {
            Side::Zero => 0,
            Side::One => 1,
        }
    }
}

// The count of a port, whatever becomes of its run.
pub fn count_of(port: Port) -> usize
    ensures { result ≡ count_of port }
{
    match port {
        Port::Hearing(receiver) => receiver.count,
        Port::Throwing(count) => count,
    }
}

// One byte that comes in on a port.
#[tactic(auto, unfolding(crate::specs::Ports::hear_of))]
pub fn hear(largest: u16, port: Port, byte: u8, message: &mut [u8]) -> Got
    ensures { hearing_of result message.new ≡ hear_of largest port byte message.old }
{
    match port {
        Port::Hearing(receiver) => {
            let got = receive(largest, receiver, byte, message);
            Got {
                port: Port::Hearing(got.receiver),
                heard: got.heard,
            }
        }
        Port::Throwing(_) if byte == FEND => Got {
            port: Port::Hearing(Receiver {
                place: Place::Run,
                count: 0,
            }),
            heard: Heard::Empty,
        },
        // Made again from its count: handed on whole, it kept this function out of its callers on a Cortex-M4, 140 instructions a call.
        Port::Throwing(count) => Got {
            port: Port::Throwing(count),
            heard: Heard::Taken,
        },
    }
}

// One byte that comes in on one of the two. The two buffers are no `Both`: each function that took one would have to promise too that it holds
// the same buffers afterwards.
pub fn hear_on(
    side: Side,
    largest: u16,
    ports: Ports,
    byte: u8,
    message0: &mut [u8],
    message1: &mut [u8],
) -> GotOn
    ensures { hearing_on result.ports result.heard (both message0.new message1.new)
        ≡ hear_on_of side largest ports byte (both message0.old message1.old) }
{
    let got = match side {
        Side::Zero => hear(largest, ports.port0, byte, message0),
        Side::One => hear(largest, ports.port1, byte, message1),
    };
    GotOn {
        ports: ports.with(side, got.port),
        heard: got.heard,
    }
}

// By the two addresses that a port hears.
fn by_address(destination: u16, to_1: u16, to_0: u16) -> Option<Side>
    ensures { result ≡ by_address destination to_1 to_0 }
{
    if destination == to_1 {
        Some(Side::One)
    } else if destination == to_0 {
        Some(Side::Zero)
    } else {
        None
    }
}

// Where a message for this address is answered that came in on this port: on a port, or nowhere, since its address is not heard there. In 16
// bits, so that no strap is too large to add.
#[tactic(auto, unfolding(crate::specs::Ports::answered_on))]
pub fn answered_on(strap: u8, side: Side, destination: u8) -> Option<Side>
    ensures { result ≡ answered_on strap side destination }
{
    let s = strap as u16;
    let address = destination as u16;
    match side {
        Side::Zero => by_address(address, ON_0_TO_1 + s, ON_0_TO_0 + s),
        Side::One => by_address(address, ON_1_TO_1 + s, ON_1_TO_0 + s),
    }
}

impl Side {
    // The diagnostics of a port.
    pub fn counts(self) -> Counts
        ensures { result ≡ counts_of self }
    {
        match self {
            Side::Zero => Counts {
                first: 0x07,
                thrown: 0x0c,
                lost: 0x0d,
            },
            Side::One => Counts {
                first: 0x0e,
                thrown: 0x13,
                lost: 0x14,
            },
        }
    }
}

// Whether a run is open in which any byte came.
#[tactic(auto, unfolding(crate::specs::Ports::is_open, line::specs::Receiver::closed_of))]
pub fn is_open(port: Port) -> bool
    ensures { result ≡ is_open port }
{
    match port {
        Port::Hearing(receiver) => match receiver.place {
            Place::Fresh => false,
            Place::Run => receiver.count != 0,
            Place::Escape | Place::Fault => true,
        },
        Port::Throwing(_) => false,
    }
}

// What a reply does to the port on which it leaves or should have left, and to the counts.
#[tactic(auto, unfolding(crate::specs::Ports::settle_of))]
pub fn settle(fate: Fate, side: Side, ports: Ports, diagnostics: &mut [u32]) -> Ports
    ensures { settlement result diagnostics.new ≡ settle_of fate side ports diagnostics.old }
{
    match fate {
        Fate::Nothing => ports,
        Fate::Lost => {
            count_up(diagnostics, side.counts().lost);
            ports
        }
        Fate::Leaves => {
            let port = ports.of(side);
            if is_open(port) {
                count_up(diagnostics, side.counts().thrown);
                ports.with(side, Port::Throwing(count_of(port)))
            } else {
                ports
            }
        }
    }
}

// The message buffer of a port.
pub fn heard_by<'a>(side: Side, message0: &'a [u8], message1: &'a [u8]) -> &'a [u8]
    ensures { result.now ≡ of_side side (both message0.now message1.now) }
{
    let messages = Both {
        port0: message0,
        port1: message1,
    };
    messages.of(side)
}

// The written first part of the reply buffer of a port, handed back to be sent. An `n` past its end gives the whole.
pub fn sent_by<'a>(side: Side, n: usize, reply0: &'a [u8], reply1: &'a [u8]) -> &'a [u8]
    ensures { result.now ≡ take n (of_side side (both reply0.now reply1.now)) }
{
    let replies = Both {
        port0: reply0,
        port1: reply1,
    };
    let reply = replies.of(side);
    reply.get(..n).unwrap_or(reply)
}
