// Whether bootloader FRAM is locked, as the diagnostics show it.
ghost use Rattle.std.specs.Prelude.{◌≡◌};
ghost use Rattle.memory.specs.Status.{status_byte, status_written};

// The diagnostic that has the FRAM status bytes.
const FRAM_STATUS: usize = 0x06;

const UNLOCKED: u32 = 0x40;

const LOCKED: u32 = 0xcc;

fn status_byte(locked: bool) -> u32
    ensures { result ≡ status_byte locked }
{
    if locked { LOCKED } else { UNLOCKED }
}

// Writes the low byte of the FRAM status; its other bytes stay. Where there is no such diagnostic nothing changes.
#[tactic(auto, unfolding(crate::specs::Status::status_written))]
pub fn write_status(diagnostics: &mut [u32], locked: bool)
    ensures { diagnostics.new ≡ status_written locked diagnostics.old }
{
    // of what `get_mut` leaves in a slice std says nothing
    if FRAM_STATUS < diagnostics.len() {
        diagnostics[FRAM_STATUS] = diagnostics[FRAM_STATUS] / 256 * 256 + status_byte(locked);
    }
}
