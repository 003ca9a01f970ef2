// The unit's memory, lent to it for each call.
#![tactic(auto)]

ghost use Rattle.std.specs.Prelude.{◌≡◌, take};
ghost use Rattle.ports.specs.Sides.{both, of_side};

use ports::{Both, Side, sent_by};
use unit::{Stepped, Unit};
use words::arguments::Arguments;

// One of each array. Both FRAMs have room for the largest, and of each as much is lent as was asked for: by way of a slice of the whole,
// since of a part of a field that is lent to be written no proof is made.
#[derive(Drop)]
pub struct Memory {
    fitted: Arguments,
    edac: [u8; 1536],
    bootloader: [u8; 262144],
    bootloader_sums: [u16; 1024],
    fram: [u8; 262144],
    sums: [u16; 1024],
    pub diagnostics: [u32; 31],
    message0: [u8; 1033],
    reply0: [u8; 2068],
    message1: [u8; 1033],
    reply1: [u8; 2068],
}

impl Memory {
    pub fn fresh(fitted: Arguments) -> Memory {
        Memory {
            fitted,
            edac: [0; 1536],
            bootloader: [0; 262144],
            bootloader_sums: [0; 1024],
            fram: [0; 262144],
            sums: [0; 1024],
            diagnostics: [0; 31],
            message0: [0; 1033],
            reply0: [0; 2068],
            message1: [0; 1033],
            reply1: [0; 2068],
        }
    }

    // Sets a unit up.
    pub fn set_up(&mut self) -> Unit {
        let fitted = self.fitted;
        let bootloader_sums = &mut self.bootloader_sums[..];
        let sums = &mut self.sums[..];
        unit::set_up(
            fitted.strap,
            fitted.limit,
            fitted.locked,
            &self.edac,
            &self.bootloader[..fitted.bootloader],
            &mut bootloader_sums[..fitted.bootloader / 256],
            &self.fram[..fitted.fram],
            &mut sums[..fitted.fram / 256],
            &mut self.diagnostics,
            &self.message0,
            &self.reply0,
            &self.message1,
            &self.reply1,
        )
        .unit
    }

    // Feeds the unit one byte, on port 0. A reply is out of its buffer before the next byte is fed, so that no port is ever sending.
    pub fn feed(&mut self, unit: Unit, byte: u8) -> Stepped {
        let fitted = self.fitted;
        let silent = Both {
            port0: false,
            port1: false,
        };
        let bootloader = &mut self.bootloader[..];
        let bootloader_sums = &mut self.bootloader_sums[..];
        let fram = &mut self.fram[..];
        let sums = &mut self.sums[..];
        unit::step(
            unit,
            0,
            byte,
            silent,
            &mut self.edac,
            &mut bootloader[..fitted.bootloader],
            &mut bootloader_sums[..fitted.bootloader / 256],
            &mut fram[..fitted.fram],
            &mut sums[..fitted.fram / 256],
            &mut self.diagnostics,
            &mut self.message0,
            &mut self.reply0,
            &mut self.message1,
            &mut self.reply1,
        )
    }

    // The reply of so many bytes that left on a port.
    pub fn reply(&self, side: Side, sent: usize) -> &[u8]
        ensures { result.now ≡ take sent (of_side side (both self.now.reply0 self.now.reply1)) }
    {
        sent_by(side, sent, &self.reply0, &self.reply1)
    }
}
