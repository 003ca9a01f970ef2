// The unit: a record by value, set-up, and one byte in and one answer out.
#![tactic(auto)]

ghost use Rattle.std.specs.Prelude.{◌≡◌};
ghost use Rattle.blocks.specs.Fram.{kept};
ghost use Rattle.ports.specs.Ports.{both_fresh};
ghost use Rattle.commanding.specs.World.{world, outcome_of};
ghost use Rattle.unit.specs.Steps.{set_up_of, step_of};

pub use answer::Answer;
use blocks::fram::Fram;
use carrying::Mode;
pub use commanding::Stepped;
use commanding::commanded;
pub use judging::Unit;
use judging::fitting::set_up_fit;
use judging::{Lengths, Verdict};
use line::receiver::{Place, Receiver};
use memory::status::write_status;
use ports::{Both, Port, Ports, Sending, Side};

// The strap that a refused set-up hands back, which no unit has.
const NOBODY: u8 = 8;

// Both ports with fresh receivers.
fn both_fresh() -> Ports
    ensures { result ≡ both_fresh }
{
    let fresh = Receiver {
        place: Place::Fresh,
        count: 0,
    };
    Both {
        port0: Port::Hearing(fresh),
        port1: Port::Hearing(fresh),
    }
}

// Sets a unit up: computes all sums, in bootloader mode with both receivers fresh, with bootloader FRAM locked or not, which it shows
// in the diagnostics. A refused set-up hands back a record with strap 8, so that every later call with it is refused. The limit is
// wider here than in the record, so that no number is cut to one that would be taken.
pub fn set_up(
    strap: u8,
    limit: usize,
    locked: bool,
    edac: &[u8],
    bootloader: &[u8],
    bootloader_sums: &mut [u16],
    fram: &[u8],
    sums: &mut [u16],
    diagnostics: &mut [u32],
    message0: &[u8],
    reply0: &[u8],
    message1: &[u8],
    reply1: &[u8],
) -> Stepped
    ensures { outcome_of result (world edac.now (kept bootloader.now bootloader_sums.new) (kept fram.now sums.new) diagnostics.new message0.now reply0.now message1.now reply1.now)
        ≡ set_up_of strap limit locked (world edac.now (kept bootloader.now bootloader_sums.old) (kept fram.now sums.old) diagnostics.old message0.now reply0.now message1.now reply1.now) }
{
    let lengths = Lengths {
        edac: edac.len(),
        bootloader: bootloader.len(),
        bootloader_sums: bootloader_sums.len(),
        fram: fram.len(),
        sums: sums.len(),
        diagnostics: diagnostics.len(),
        message0: message0.len(),
        reply0: reply0.len(),
        message1: message1.len(),
        reply1: reply1.len(),
    };
    let ports = both_fresh();
    if let Err(answer) = set_up_fit(strap, limit, lengths) {
        let nobody = Unit {
            strap: NOBODY,
            limit: 0,
            mode: Mode::Bootloader,
            locked: false,
            bootloader_len: 0,
            fram_len: 0,
            ports,
        };
        return Stepped::quiet(nobody, answer);
    }
    blocks::compute_sums(bootloader, bootloader_sums);
    blocks::compute_sums(fram, sums);
    write_status(diagnostics, locked);
    let unit = Unit {
        strap,
        limit: limit as u16,
        mode: Mode::Bootloader,
        locked,
        bootloader_len: bootloader.len(),
        fram_len: fram.len(),
        ports,
    };
    Stepped::quiet(unit, Answer::Taken)
}

// One byte in on a port, one answer out. `sending` says which ports are sending now.
pub fn step(
    unit: Unit,
    port: u8,
    byte: u8,
    sending: Sending,
    edac: &mut [u8],
    bootloader: &mut [u8],
    bootloader_sums: &mut [u16],
    fram: &mut [u8],
    sums: &mut [u16],
    diagnostics: &mut [u32],
    message0: &mut [u8],
    reply0: &mut [u8],
    message1: &mut [u8],
    reply1: &mut [u8],
) -> Stepped
    ensures { outcome_of result (world edac.new (kept bootloader.new bootloader_sums.new) (kept fram.new sums.new) diagnostics.new message0.new reply0.new message1.new reply1.new)
        ≡ step_of unit port byte sending (world edac.old (kept bootloader.old bootloader_sums.old) (kept fram.old sums.old) diagnostics.old message0.old reply0.old message1.old reply1.old) }
{
    let lengths = Lengths {
        edac: edac.len(),
        bootloader: bootloader.len(),
        bootloader_sums: bootloader_sums.len(),
        fram: fram.len(),
        sums: sums.len(),
        diagnostics: diagnostics.len(),
        message0: message0.len(),
        reply0: reply0.len(),
        message1: message1.len(),
        reply1: reply1.len(),
    };
    let judged = judging::judge(unit, port, byte, lengths, message0, message1);
    match judged.verdict {
        Verdict::Quiet(answer) => Stepped::quiet(judged.unit, answer),
        Verdict::Dropped(answer, channel) => {
            memory::counts::count_up(diagnostics, channel);
            Stepped::quiet(judged.unit, answer)
        }
        Verdict::Command(count, telemetry) => {
            let message = ports::heard_by(Side::from(port), message0, message1);
            // One that is judged a command was lent as many sums as blocks.
            let mut bootloader = Fram {
                bytes: bootloader,
                sums: bootloader_sums,
            };
            let mut user = Fram { bytes: fram, sums };
            commanded(
                judged.unit,
                telemetry,
                sending.of(telemetry),
                count,
                edac,
                &mut bootloader,
                &mut user,
                diagnostics,
                message,
                reply0,
                reply1,
            )
        }
    }
}
