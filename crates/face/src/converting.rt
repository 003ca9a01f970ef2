// C's numbers and records as the unit's, and back. A mode, a place and a port have their numbers here and no impl of `From`: neither such a type nor
// a number is this room's, and only the room of one of the two may write that impl.
ghost use Rattle.std.specs.Prelude.{◌≡◌};
ghost use Rattle.face.specs.Records.{mode_in, mode_out, place_in, place_out, port_in, place_out_of, lock_in, sending_in, unit_in, unit_out, stepped_out};

use crate::{WheelMany, WheelStepped, WheelUnit};
use carrying::Mode;
use commanding::Stepped;
use judging::Unit;
use line::receiver::{Place, Receiver};
use ports::{Both, Port, Sending, count_of};
use streaming::Many;

// The place of a run that is thrown away.
const THROWN: u8 = 4;

#[tactic(auto, unfolding(crate::specs::Records::mode_in))]
fn mode_in(number: u8) -> Mode
    ensures { result ≡ mode_in number }
{
    if number == 0 {
        Mode::Bootloader
    } else {
        Mode::Application
    }
}

fn mode_out(mode: Mode) -> u8
    ensures { result ≡ mode_out mode }
{
    match mode {
        Mode::Bootloader => 0,
        Mode::Application => 1,
    }
}

#[tactic(auto, unfolding(crate::specs::Records::place_in))]
fn place_in(number: u8) -> Place
    ensures { result ≡ place_in number }
{
    match number {
        0 => Place::Fresh,
        1 => Place::Run,
        2 => Place::Escape,
        _ => Place::Fault,
    }
}

fn place_out(place: Place) -> u8
    ensures { result ≡ place_out place }
{
    match place {
        Place::Fresh => 0,
        Place::Run => 1,
        Place::Escape => 2,
        Place::Fault => 3,
    }
}

#[tactic(auto, unfolding(crate::specs::Records::port_in))]
fn port_in(place: u8, count: u64) -> Port
    ensures { result ≡ port_in place count }
{
    if place == THROWN {
        return Port::Throwing(count as usize);
    }
    Port::Hearing(Receiver {
        place: place_in(place),
        count: count as usize,
    })
}

fn place_out_of(port: Port) -> u8
    ensures { result ≡ place_out_of port }
{
    match port {
        Port::Hearing(receiver) => place_out(receiver.place),
        Port::Throwing(_) => THROWN,
    }
}

pub fn lock_in(number: u8) -> bool
    ensures { result ≡ lock_in number }
{
    number != 0
}

pub fn sending_in(sending0: u8, sending1: u8) -> Sending
    ensures { result ≡ sending_in sending0 sending1 }
{
    Both {
        port0: sending0 != 0,
        port1: sending1 != 0,
    }
}

impl From<WheelUnit> for Unit {
    ghost from_gives = { λ lent r. r ≡ unit_in lent };

    fn from(lent: WheelUnit) -> Unit {
        Unit {
            strap: lent.strap,
            limit: lent.limit,
            mode: mode_in(lent.mode),
            locked: lock_in(lent.locked),
            bootloader_len: lent.bootloader_len as usize,
            fram_len: lent.fram_len as usize,
            ports: Both {
                port0: port_in(lent.place0, lent.count0),
                port1: port_in(lent.place1, lent.count1),
            },
        }
    }
}

impl From<Unit> for WheelUnit {
    ghost from_gives = { λ held r. r ≡ unit_out held };

    fn from(held: Unit) -> WheelUnit {
        let Both { port0, port1 } = held.ports;
        WheelUnit {
            bootloader_len: held.bootloader_len as u64,
            fram_len: held.fram_len as u64,
            count0: count_of(port0) as u64,
            count1: count_of(port1) as u64,
            limit: held.limit,
            strap: held.strap,
            mode: mode_out(held.mode),
            place0: place_out_of(port0),
            place1: place_out_of(port1),
            locked: u8::from(held.locked),
        }
    }
}

impl From<Stepped> for WheelStepped {
    ghost from_gives = { λ s r. r ≡ stepped_out s.unit s.answer s.cost s.port };

    fn from(stepped: Stepped) -> WheelStepped {
        WheelStepped {
            unit: WheelUnit::from(stepped.unit),
            sent: stepped.answer.sent() as u64,
            answer: u8::from(stepped.answer),
            port: u8::from(stepped.port),
            cost: stepped.cost,
        }
    }
}

impl From<Many> for WheelMany {
    ghost from_gives = { λ many r. r ≡ record { last = stepped_out many.last.unit many.last.answer many.last.cost many.last.port; taken = many.taken } };

    fn from(many: Many) -> WheelMany {
        WheelMany {
            last: WheelStepped::from(many.last),
            taken: many.taken as u64,
        }
    }
}
