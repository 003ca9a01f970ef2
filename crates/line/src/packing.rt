// Packing: a message, its two last bytes already on it, as the line carries it.
ghost use Rattle.std.specs.Prelude.{◌≡◌, ◌+◌, ◌<◌, ◌≤◌, length, take};
ghost use Rattle.std.proofs.lemmas.List.Edits.{sets};
ghost use Rattle.line.specs.Packing.{reply_size, packing_of, pack_of, escaped_of};

use super::framing::{FEND, FESC, TFEND, TFESC};

// The shortest and the longest message, and the room that the longest may take when it is packed.
pub const SHORTEST_MESSAGE: usize = 5;

pub const MESSAGE_SIZE: usize = 1_033;

pub const REPLY_SIZE: usize = 2_068;

// Why nothing is packed; nothing is written then.
#[derive(Clone, Copy, PartialEq, Eq)]
pub enum PackError {
    // The reply buffer has too little room.
    ShortReply,
    // The message is too short or too long.
    BadLength,
}

// One byte of the message, escaped where it must be; the answer is the next free place. There is room for an escape at every byte, so
// that the loop over a message tests none. Places are counted in 32 bits, one word of the wheel's processor, where a `usize` takes two:
// on a Cortex-M4 a byte that stands for itself takes 9 instructions so, and 16 with a `usize`. The three ways share the store of the
// last byte, so that such a byte costs little more than that.
#[tactic(auto, unfolding(crate::specs::Packing::escaped_of))]
fn put(byte: u8, at: u32, reply: &mut [u8]) -> u32
    requires { (at + 1 < reply_size) × (reply_size ≤ length reply.old) }
    ensures { (result ≡ at + length (escaped_of byte)) × (reply.new ≡ sets reply.old at (escaped_of byte)) }
{
    let (place, last) = match byte {
        FEND => {
            reply[at as usize] = FESC;
            (at + 1, TFEND)
        }
        FESC => {
            reply[at as usize] = FESC;
            (at + 1, TFESC)
        }
        _ => (at, byte),
    };
    reply[place as usize] = last;
    place + 1
}

// The message as the line carries it, into the first part of the reply buffer; the answer is how many bytes that part has. Which refusal
// comes first is 01's order.
#[tactic(auto, unfolding(crate::specs::Packing::pack_of))]
pub fn pack(message: &[u8], reply: &mut [u8]) -> Result<usize, PackError>
    ensures { packing_of result reply.new ≡ pack_of message.now reply.old }
{
    if reply.len() < REPLY_SIZE {
        return Err(PackError::ShortReply);
    }
    if !(SHORTEST_MESSAGE..=MESSAGE_SIZE).contains(&message.len()) {
        return Err(PackError::BadLength);
    }
    reply[0] = FEND;
    let mut at: u32 = 1;
    // `for byte in message` counts in a `usize`, which takes 12 instructions of a Cortex-M4 a byte
    for i in 0..message.len() as u32 {
        at = put(message[i as usize], at, reply);
    }
    let end = at as usize;
    reply[end] = FEND;
    Ok(end + 1)
}

// The written first part of a reply buffer, handed back to be sent. An `n` past the end gives the whole.
pub fn sent<'a>(reply: &'a mut [u8], n: usize) -> &'a mut [u8]
    ensures { result.now ≡ take n reply.old }
{
    let end = n.min(reply.len());
    &mut reply[..end]
}
