// The receiver: one byte in, the next record and what was heard out. It keeps no byte itself: an unpacked byte goes straight
// into the message buffer that the caller lends, at the count.
ghost use Rattle.std.specs.Prelude.{◌≡◌};
ghost use Rattle.line.specs.Receiver.{reception_of, receive_of, taken_of, stored_of, counted_of, unpacked_of, after_escape_of, closed_of};

use super::framing::{FEND, FESC, TFEND, TFESC};

// Where the receiver stands.
#[derive(Clone, Copy)]
pub enum Place {
    // No FEND has come yet.
    Fresh,
    // Between two FENDs.
    Run,
    // The same, and the last byte was FESC.
    Escape,
    // The same, after a framing fault.
    Fault,
}

// `count` is the number of bytes unpacked in this run; it stops at one above the largest message, or at the fault.
#[derive(Clone, Copy)]
pub struct Receiver {
    pub place: Place,
    pub count: usize,
}

// What one byte brought about.
#[derive(Clone, Copy)]
pub enum Heard {
    // The byte was taken, and no run closed.
    Taken,
    // A run closed in which no byte at all had come.
    Empty,
    // A run closed in which there was a framing fault.
    Framing,
    // A run closed, and this count of bytes is to be judged.
    Message(usize),
}

#[derive(Clone, Copy)]
pub struct Received {
    pub receiver: Receiver,
    pub heard: Heard,
}

// What a FEND closes. A run with no byte unpacked and no escape open had no byte at all.
#[tactic(auto, unfolding(crate::specs::Receiver::closed_of))]
fn closed(receiver: Receiver) -> Heard
    ensures { result ≡ closed_of receiver.place receiver.count }
{
    match receiver.place {
        Place::Fresh => Heard::Taken,
        Place::Run if receiver.count == 0 => Heard::Empty,
        Place::Run => Heard::Message(receiver.count),
        Place::Escape | Place::Fault => Heard::Framing,
    }
}

// A byte that closes nothing leaves the receiver at `place`.
fn taken(place: Place, count: usize) -> Received
    ensures { result ≡ taken_of place count }
{
    Received {
        receiver: Receiver { place, count },
        heard: Heard::Taken,
    }
}

// One unpacked byte goes to its place, unless the message is too long already or the buffer is too short.
#[tactic(auto, unfolding(crate::specs::Receiver::stored_of))]
fn store(largest: u16, count: usize, byte: u8, message: &mut [u8])
    ensures { message.new ≡ stored_of largest count byte message.old }
{
    // of what `get_mut` leaves in a slice std says nothing
    if count < usize::from(largest) && count < message.len() {
        message[count] = byte;
    }
}

// A count above the largest says that the message is too long, and need not rise further. The largest is a `u16`, so that one more
// than it is always a count.
#[tactic(auto, unfolding(crate::specs::Receiver::counted_of))]
fn counted(largest: u16, count: usize) -> usize
    ensures { result ≡ counted_of largest count }
{
    if count <= usize::from(largest) {
        count + 1
    } else {
        count
    }
}

// One unpacked byte, stored and counted; the run goes on.
fn unpacked(largest: u16, count: usize, byte: u8, message: &mut [u8]) -> Received
    ensures { reception_of result message.new ≡ unpacked_of largest count byte message.old }
{
    store(largest, count, byte, message);
    taken(Place::Run, counted(largest, count))
}

// The byte after FESC.
#[tactic(auto, unfolding(crate::specs::Receiver::after_escape_of))]
fn after_escape(largest: u16, count: usize, byte: u8, message: &mut [u8]) -> Received
    ensures { reception_of result message.new ≡ after_escape_of largest count byte message.old }
{
    match byte {
        TFEND => unpacked(largest, count, FEND, message),
        TFESC => unpacked(largest, count, FESC, message),
        _ => taken(Place::Fault, count),
    }
}

// One byte from the line. `largest` is the length of the largest message that is taken. FEND is looked for first: it means the same
// wherever the receiver stands.
#[tactic(auto, unfolding(crate::specs::Receiver::receive_of, crate::specs::Receiver::inside_of))]
pub fn receive(largest: u16, receiver: Receiver, byte: u8, message: &mut [u8]) -> Received
    ensures { reception_of result message.new ≡ receive_of largest receiver byte message.old }
{
    if byte == FEND {
        return Received {
            receiver: Receiver {
                place: Place::Run,
                count: 0,
            },
            heard: closed(receiver),
        };
    }
    let Receiver { place, count } = receiver;
    match place {
        Place::Run if byte == FESC => taken(Place::Escape, count),
        Place::Run => unpacked(largest, count, byte, message),
        Place::Escape => after_escape(largest, count, byte, message),
        Place::Fresh | Place::Fault => taken(place, count),
    }
}
