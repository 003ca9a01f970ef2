// What is said to a command: the reply's message, made and packed, or nothing.
#![tactic(auto)]

ghost use Rattle.std.specs.Prelude.{◌≡◌, cond, IfOk, ◌-◌, ◌≤◌, length, get_or};
ghost use Rattle.line.specs.Packing.{shortest_message, message_size, reply_size, packed_of};
ghost use Rattle.carrying.specs.Ending.{longest_data};
ghost use Rattle.memory.specs.Bytes.{stretch, begun};
ghost use Rattle.ports.specs.Sides.{both};
ghost use Rattle.replying.specs.Replies.{reply_control, reply_message, said, said_of, ending_of};
ghost use Rattle.replying.specs.Ports.{fate_of_reply, fate_of, silent_of, said_on, said_by_of, said_on_of};

use answer::Answer;
use carrying::{CommandError, Ended};
use memory::bytes::put;
use ports::{Fate, Side};

// A message's head is destination, source and control, at these places, HEAD bytes in all; its CRC has CRC_SIZE.
const DESTINATION: usize = 0;

const SOURCE: usize = 1;

pub const CONTROL: usize = 2;

pub const HEAD: usize = 3;

pub const CRC_SIZE: usize = 2;

// Control: bit 7 poll or final, bit 6 B, bit 5 ACK, and below them as many codes as the low five bits have.
const POLLED: u8 = 0x80;

const B: u8 = 0x40;

const ACK: u8 = 0x20;

pub const CODES: u8 = 32;

// Bit 7 set, B and code copied, and the ACK bit.
fn control_of(ack: bool, control: u8) -> u8
    ensures { result ≡ reply_control (cond ack 1 0) control }
{
    POLLED + control / B % 2 * B + u8::from(ack) * ACK + control % CODES
}

// Sends the reply whose data, `size` bytes, stands in `made` from place HEAD on: writes its head before it and its CRC behind it, packs
// it into `reply`, and answers how many bytes are sent.
fn send(
    made: &mut [u8],
    size: usize,
    ack: bool,
    destination: u8,
    source: u8,
    control: u8,
    reply: &mut [u8],
) -> usize
    requires { (size ≤ longest_data) × (length made.old ≡ message_size) × (reply_size ≤ length reply.old) }
    ensures { (result ≡ length (packed_of (reply_message (cond ack 1 0) destination source control (stretch 3 size made.old))))
        × (reply.new ≡ begun reply.old (packed_of (reply_message (cond ack 1 0) destination source control (stretch 3 size made.old)))) }
{
    made[DESTINATION] = source;
    made[SOURCE] = destination;
    made[CONTROL] = control_of(ack, control);
    let end = HEAD + size;
    let sum = crc::sum(&made[..end]);
    made[end] = (sum % 256) as u8;
    made[end + 1] = (sum / 256 % 256) as u8;
    let all = end + CRC_SIZE;
    // The message is of a legal length, and the reply buffer long enough for any.
    line::packing::pack(&made[..all], reply).unwrap()
}

// Answers a command, a sound message of `count` bytes, by what it came to. The reply's data stands in `made` from place HEAD on.
#[tactic(auto, unfolding(crate::specs::Replies::said_of, crate::specs::Replies::saying))]
pub fn say(ended: Ended, count: usize, message: &[u8], made: &mut [u8], reply: &mut [u8]) -> Answer
    requires done_fits { IfOk ended (λ n. n ≤ longest_data) }
    requires lengths { (shortest_message ≤ count) × (count ≤ message_size) × (message_size ≤ length message.now) × (length made.old ≡ message_size) × (reply_size ≤ length reply.old) }
    ensures { said result reply.new
        ≡ said_of (get_or message.now 0 0) (get_or message.now 1 0) (get_or message.now 2 0)
        (stretch 3 (count - 5) message.now) (ending_of ended made.old) reply.old }
{
    let control = message[CONTROL];
    match ended {
        Err(CommandError::Unfitted) => Answer::Unfitted,
        Err(CommandError::Refused) => {
            if control < POLLED {
                return Answer::Refused;
            }
            let end = count - CRC_SIZE;
            put(&message[HEAD..end], made, HEAD);
            Answer::Nacked(send(
                made,
                end - HEAD,
                false,
                message[DESTINATION],
                message[SOURCE],
                control,
                reply,
            ))
        }
        Ok(size) => {
            if control < POLLED {
                return Answer::Done;
            }
            Answer::Acked(send(
                made,
                size,
                true,
                message[DESTINATION],
                message[SOURCE],
                control,
                reply,
            ))
        }
    }
}

// What becomes of a reply, where its port is sending or not.
fn fate_of_reply(control: u8, sending: bool) -> Fate
    ensures { result ≡ fate_of_reply control sending }
{
    if control < POLLED {
        return Fate::Nothing;
    }
    if sending { Fate::Lost } else { Fate::Leaves }
}

// What becomes of the reply to a command that came to this.
#[tactic(auto, unfolding(crate::specs::Ports::fate_of))]
pub fn fate_of(ended: Ended, control: u8, sending: bool) -> Fate
    ensures { result ≡ fate_of ended control sending }
{
    match ended {
        Ok(_) | Err(CommandError::Refused) => fate_of_reply(control, sending),
        Err(CommandError::Unfitted) => Fate::Nothing,
    }
}

// The answer to a command of which nothing is sent.
fn silent_of(ended: Ended) -> Answer
    ensures { result ≡ silent_of ended }
{
    match ended {
        Ok(_) => Answer::Done,
        Err(CommandError::Refused) => Answer::Refused,
        Err(CommandError::Unfitted) => Answer::Unfitted,
    }
}

// The same as `say`, by the port on which it is said.
fn say_by(
    side: Side,
    ended: Ended,
    count: usize,
    message: &[u8],
    made: &mut [u8],
    reply0: &mut [u8],
    reply1: &mut [u8],
) -> Answer
    requires done_fits { IfOk ended (λ n. n ≤ longest_data) }
    requires lengths { (shortest_message ≤ count) × (count ≤ message_size) × (message_size ≤ length message.now) × (length made.old ≡ message_size)
        × (reply_size ≤ length reply0.old) × (reply_size ≤ length reply1.old) }
    ensures { said_on result (both reply0.new reply1.new)
        ≡ said_by_of side (get_or message.now 0 0) (get_or message.now 1 0) (get_or message.now 2 0)
        (stretch 3 (count - 5) message.now) (ending_of ended made.old) (both reply0.old reply1.old) }
{
    match side {
        Side::Zero => say(ended, count, message, made, reply0),
        Side::One => say(ended, count, message, made, reply1),
    }
}

// Answers a command on a port, by what becomes of its reply: one that is lost writes nothing.
#[tactic(auto, unfolding(crate::specs::Ports::said_on_of))]
pub fn say_on(
    fate: Fate,
    side: Side,
    ended: Ended,
    count: usize,
    message: &[u8],
    made: &mut [u8],
    reply0: &mut [u8],
    reply1: &mut [u8],
) -> Answer
    requires done_fits { IfOk ended (λ n. n ≤ longest_data) }
    requires lengths { (shortest_message ≤ count) × (count ≤ message_size) × (message_size ≤ length message.now) × (length made.old ≡ message_size)
        × (reply_size ≤ length reply0.old) × (reply_size ≤ length reply1.old) }
    ensures { said_on result (both reply0.new reply1.new)
        ≡ said_on_of fate side (get_or message.now 0 0) (get_or message.now 1 0) (get_or message.now 2 0)
        (stretch 3 (count - 5) message.now) (ending_of ended made.old) (both reply0.old reply1.old) }
{
    if matches!(fate, Fate::Lost) {
        return silent_of(ended);
    }
    say_by(side, ended, count, message, made, reply0, reply1)
}
