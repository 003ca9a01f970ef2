// A unit with fresh memory, fed to the end of the input.
#![tactic(auto)]

use feeding::Memory;
use port::{Closed, Flow, SIZE};
use std::io::Read;
use unit::Unit;
use words::arguments::Arguments;
use words::report;
use words::report::Tally;

// Feeds a unit byte by byte to the end of the input. A proved loop has to end, and nothing says that the input does: the turns are more
// than any run uses.
fn run(
    rt: &(impl Print + Eprint),
    input: &mut impl Read,
    memory: &mut Memory,
    unit: &mut Unit,
    flow: &mut Flow,
    tally: &mut Tally,
) -> Result<(), Closed> {
    let mut bytes = [0u8; SIZE];
    for _ in 0..u64::MAX {
        let n = flow.read(rt, input, &mut bytes)?;
        for byte in &bytes[..n] {
            let stepped = memory.feed(*unit, *byte);
            *unit = stepped.unit;
            tally.count(u8::from(stepped.answer), stepped.cost);
            let sent = stepped.answer.sent();
            if sent > 0 {
                flow.send(rt, stepped.port, memory.reply(stepped.port, sent))?;
            }
        }
    }
    Err(Closed)
}

// A wheel with fresh memory.
pub fn serve(rt: &(impl Print + Eprint), input: &mut impl Read, arguments: Arguments) {
    let mut memory = Memory::fresh(arguments);
    let mut unit = memory.set_up();
    let mut flow = Flow::fresh(arguments.port1);
    let mut tally = Tally::fresh();
    // That nothing more goes in or out is how each run ends.
    let _ = run(rt, input, &mut memory, &mut unit, &mut flow, &mut tally);
    report::ended(rt, &tally, &memory.diagnostics, unit.locked, flow.sent);
}
