// A program's way to the outside: port 0 on standard input and output, and the output of port 1 on a file, if there is one. What waits
// to be written stands in one buffer, for one port at a time, so that replies are written in the order in which they left.
#![tactic(auto)]

ghost use Rattle.std.specs.Prelude.{◌≤◌, ◌+◌, IfOk};

use line::framing::FEND;
use ports::Side;
use std::io::{Error, ErrorKind, Read};
use std_io::io::last_error;
use words::report;
use words::report::{Output, Sent};

// How many bytes are read at once, and how many wait to be written.
pub const SIZE: usize = 65_536;

// The longest reply.
const LONGEST: usize = 2_068;

// Nothing more goes in or out: the input is at its end, or it or an output failed, which was told.
#[derive(Clone, Copy, PartialEq, Eq)]
pub struct Closed;

// The file of port 1, if there is one; on which output bytes wait to be written, and from where to where; and what was sent.
#[derive(Clone, Copy)]
pub struct Flow {
    file1: Option<i32>,
    output: Output,
    waiting: [u8; SIZE],
    from: usize,
    to: usize,
    pub sent: Sent,
    ghost in_order: { from ≤ to },
    ghost in_bounds: { to ≤ 65536 },
}

// How many bytes are FEND. By `filter` and `count` it took 22 instructions for each byte, so it takes 13.
fn fends(bytes: &[u8]) -> u64 {
    bytes.iter().fold(0u64, |count, byte| {
        count.wrapping_add(u64::from(*byte == FEND))
    })
}

impl Flow {
    pub fn fresh(file1: Option<i32>) -> Flow {
        Flow {
            file1,
            output: Output::Standard,
            waiting: [0; SIZE],
            from: 0,
            to: 0,
            sent: Sent {
                bytes: 0,
                fends: 0,
                left1: 0,
            },
        }
    }

    // After a write that failed.
    fn failed(&self, rt: &impl Eprint, error: Error) -> Closed {
        report::write_failed(rt, self.output, error);
        Closed
    }

    fn takes_nothing(&self, rt: &impl Eprint) -> Closed {
        report::takes_nothing(rt, self.output);
        Closed
    }

    // Writes once on standard output, and says how many bytes it took: none where a signal broke it off.
    fn write_output(&self, rt: &(impl Print + Eprint)) -> Result<usize, Closed>
        ensures { IfOk result (λ n. self.now.from + n ≤ self.now.to) }
    {
        match rt.write_some(&self.waiting[self.from..self.to]) {
            Ok(0) => Err(self.takes_nothing(rt)),
            Ok(n) => Ok(n),
            Err(error) if error.kind() == ErrorKind::Interrupted => Ok(0),
            Err(error) => Err(self.failed(rt, error)),
        }
    }

    // Writes to the file of port 1. A file that is known by its number alone is written by a call that writes all, or says that it did
    // not, and leaves the reason to be asked for. How much it wrote before is then not known, so it is not tried again.
    fn write_file(&self, rt: &impl Eprint, file: i32) -> Result<usize, Closed>
        ensures { IfOk result (λ n. self.now.from + n ≤ self.now.to) }
    {
        let waiting = &self.waiting[self.from..self.to];
        if io::write_all(file, waiting) {
            return Ok(waiting.len());
        }
        let error = last_error();
        if error.raw_os_error() == Some(0) {
            return Err(self.takes_nothing(rt));
        }
        Err(self.failed(rt, error))
    }

    // Writes some of what waits.
    fn write_once(&mut self, rt: &(impl Print + Eprint)) -> Result<(), Closed> {
        match self.output {
            Output::Standard => {
                let n = self.write_output(rt)?;
                let fends = fends(&self.waiting[self.from..self.from + n]);
                self.sent.bytes = self.sent.bytes.wrapping_add(n as u64);
                self.sent.fends = self.sent.fends.wrapping_add(fends);
                self.from += n;
            }
            Output::File(file) => self.from += self.write_file(rt, file)?,
        }
        Ok(())
    }

    // Writes all that waits. A proved loop has to end, and a signal may break each write off: the turns are more than any run uses.
    fn flush(&mut self, rt: &(impl Print + Eprint)) -> Result<(), Closed> {
        for _ in 0..u64::MAX {
            if self.from == self.to {
                self.from = 0;
                self.to = 0;
                return Ok(());
            }
            self.write_once(rt)?;
        }
        Err(Closed)
    }

    // Reads once more, when all that waits is written, and says how many bytes. A read that a signal broke off is tried again, in turns
    // as above.
    pub fn read(
        &mut self,
        rt: &(impl Print + Eprint),
        input: &mut impl Read,
        bytes: &mut [u8; SIZE],
    ) -> Result<usize, Closed>
        ensures { IfOk result (λ n. n ≤ 65536) }
    {
        self.flush(rt)?;
        for _ in 0..u64::MAX {
            match input.read(bytes) {
                Ok(0) => break,
                Ok(n) => return Ok(n),
                Err(error) if error.kind() == ErrorKind::Interrupted => {}
                Err(error) => {
                    report::read_failed(rt, error);
                    break;
                }
            }
        }
        Err(Closed)
    }

    // Puts a reply behind what waits for the same output; what waits for the other is written first.
    fn queue(
        &mut self,
        rt: &(impl Print + Eprint),
        output: Output,
        reply: &[u8],
    ) -> Result<(), Closed> {
        if self.output != output {
            self.flush(rt)?;
            self.output = output;
        }
        // There is room for it: where the longest might find none, what waits is written at once.
        if reply.len() > SIZE - self.to {
            return Err(Closed);
        }
        let to = self.to + reply.len();
        self.waiting[self.to..to].copy_from_slice(reply);
        self.to = to;
        if to > SIZE - LONGEST {
            self.flush(rt)?;
        }
        Ok(())
    }

    // A reply that left on a port. On port 1 it is told where there is no file.
    pub fn send(
        &mut self,
        rt: &(impl Print + Eprint),
        side: Side,
        reply: &[u8],
    ) -> Result<(), Closed> {
        match side {
            Side::Zero => self.queue(rt, Output::Standard, reply),
            Side::One => {
                self.sent.left1 = self.sent.left1.wrapping_add(1);
                match self.file1 {
                    Some(file) => self.queue(rt, Output::File(file), reply),
                    None => {
                        report::left_on_port1(rt, reply.len());
                        Ok(())
                    }
                }
            }
        }
    }
}
