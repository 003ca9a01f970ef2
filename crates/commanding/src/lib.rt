// A command carried out and answered: what stands between a verdict and an outcome.
#![tactic(auto)]

ghost use Rattle.std.specs.Prelude.{◌≡◌, true, List, ℕ, ◌≤◌, length};
ghost use Rattle.line.specs.Packing.{shortest_message, message_size, reply_size};
ghost use Rattle.memory.specs.Counts.{channels};
ghost use Rattle.memory.specs.Edac.{edac_size};
ghost use Rattle.blocks.specs.Lent.{kept_in, SameLoans};
ghost use Rattle.carrying.specs.Ending.{is_limit};
ghost use Rattle.commanding.specs.World.{world, outcome_of, stepped_as};
ghost use Rattle.commanding.specs.Commanded.{leaves_on, commanded_of};

use answer::Answer;
use blocks::fram::Fram;
use command::cost::command_cost;
use judging::Unit;
use line::packing::MESSAGE_SIZE;
use ports::{Fate, Side};
use replying::{CODES, CONTROL, CRC_SIZE, HEAD};

// An answer with the unit afterwards; what a command cost, as a count; and the port on which a reply leaves, port 0 where none does.
#[derive(Clone, Copy)]
pub struct Stepped {
    pub unit: Unit,
    pub answer: Answer,
    pub cost: u32,
    pub port: Side,
}

impl Stepped {
    // An answer that cost nothing and of which nothing leaves.
    pub fn quiet(unit: Unit, answer: Answer) -> Stepped
        ensures { result ≡ stepped_as unit answer }
    {
        Stepped {
            unit,
            answer,
            cost: 0,
            port: Side::Zero,
        }
    }
}

// Where the longest data field ends in a buffer for a message.
const DATA_END: usize = 1031;

fn leaves_on(fate: Fate, side: Side) -> Side
    ensures { result ≡ leaves_on fate side }
{
    match fate {
        Fate::Nothing | Fate::Lost => Side::Zero,
        Fate::Leaves => side,
    }
}

// A sound message for this unit, of `count` bytes: its command carried out, and answered on a port, which is sending or not. The reply's
// message is made in an array of the unit's own, since packing makes it longer and a lent buffer must not change where nothing is sent.
// `message` is the message buffer of the port it came in on; what stands in those of either port makes no other difference.
pub fn commanded(
    unit: Unit,
    telemetry: Side,
    sending: bool,
    count: usize,
    edac: &mut [u8],
    bootloader: &mut Fram<'_, '_>,
    user: &mut Fram<'_, '_>,
    diagnostics: &mut [u32],
    message: &[u8],
    reply0: &mut [u8],
    reply1: &mut [u8],
) -> Stepped
    requires { (length edac.old ≡ edac_size) × (length diagnostics.old ≡ channels)
        × (message_size ≤ length message.now) × (reply_size ≤ length reply0.old) × (reply_size ≤ length reply1.old)
        × (is_limit unit.limit ≡ true) × (shortest_message ≤ count) × (count ≤ message_size) }
    ensures bootloader_lent { SameLoans bootloader.new bootloader.old }
    ensures user_lent { SameLoans user.new user.old }
    ensures outcome { (m0 m1 : List ℕ)
        → outcome_of result (world edac.new (kept_in bootloader.new) (kept_in user.new) diagnostics.new m0 reply0.new m1 reply1.new)
        ≡ commanded_of unit telemetry sending count message.now (world edac.old (kept_in bootloader.old) (kept_in user.old) diagnostics.old m0 reply0.old m1 reply1.old) }
{
    let end = count - CRC_SIZE;
    let control = message[CONTROL];
    let code = control % CODES;
    let field = &message[HEAD..end];
    let mut made = [0u8; MESSAGE_SIZE];
    let carried = command::carry_out(
        unit.limit as usize,
        code,
        unit.mode,
        unit.locked,
        field,
        edac,
        bootloader,
        user,
        diagnostics,
        &mut made[HEAD..DATA_END],
    );
    let ended = carried.ended;
    let cost = command_cost(code, ended, field);
    let fate = replying::fate_of(ended, control, sending);
    let answer = replying::say_on(
        fate, telemetry, ended, count, message, &mut made, reply0, reply1,
    );
    let ports = ports::settle(fate, telemetry, unit.ports, diagnostics);
    Stepped {
        unit: Unit {
            mode: carried.mode,
            locked: carried.locked,
            ports,
            ..unit
        },
        answer,
        cost,
        port: leaves_on(fate, telemetry),
    }
}
