// A wheel whose port 0 is standard input and output: `wheel [STRAP [FRAM [LIMIT [BOOTLOADER [LOCK [PORT1]]]]]]`. It sets a unit up,
// feeds it every byte that it reads and writes every reply, on port 1 to the file of this number, or tells that it left; where the
// input ends it says on standard error how often each answer came, by its number, which diagnostics moved, whether bootloader FRAM is
// locked, the largest cost of a CRC command, how many replies and bytes were written on port 0, and how many replies
// left on port 1.
#![tactic(auto)]

use serving::serve;
use words::arguments::{Arguments, is_help};
use words::report;

fn main(rt: HostRuntime) {
    if is_help(&rt) {
        report::help(&rt);
        return;
    }
    match Arguments::parsed(&rt) {
        Ok(arguments) => serve(&rt, &mut rt.stdin(), arguments),
        Err(error) => report::refused(&rt, error),
    }
}
