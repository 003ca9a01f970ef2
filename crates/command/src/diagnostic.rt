// DIAGNOSTIC 0x04.
ghost use Rattle.std.specs.Prelude.{◌≡◌, true, ◌∷◌, ◌+◌, ◌*◌, ◌≤◌, length};
ghost use Rattle.memory.specs.Bytes.{stored, begun};
ghost use Rattle.memory.specs.Counts.{channels};
ghost use Rattle.field.specs.Fields.{bytes32};
ghost use Rattle.carrying.specs.Ending.{left, leaves};
ghost use Rattle.command.specs.Diagnostic.{all_channels, channels_shown, diagnostic_of};

use carrying::{CommandError, Ended};
use memory::bytes::put;

// The last channel that there is.
const LAST_CHANNEL: u8 = 0x1e;

// Whether the list holds channels alone.
fn are_channels(field: &[u8]) -> bool
    ensures { result ≡ all_channels field.now }
{
    field.iter().all(|channel| *channel <= LAST_CHANNEL)
}

// Writes a channel and its value.
fn show_channel(channel: u8, value: u32, reply: &mut [u8], at: usize)
    requires { at + 5 ≤ length reply.old }
    ensures { reply.new ≡ stored reply.old at (channel ∷ bytes32 value) }
{
    reply[at] = channel;
    put(&value.to_le_bytes(), reply, at + 1);
}

// Shows each channel of a list, one after the other.
fn show_channels(diagnostics: &[u32], field: &[u8], reply: &mut [u8])
    requires { (length diagnostics.now ≡ channels) × (all_channels field.now ≡ true) × (5 * length field.now ≤ length reply.old) }
    ensures { reply.new ≡ begun reply.old (channels_shown diagnostics.now field.now) }
{
    for (i, channel) in field.iter().enumerate() {
        show_channel(*channel, diagnostics[usize::from(*channel)], reply, 5 * i);
    }
}

pub fn diagnostic(room: usize, diagnostics: &[u32], field: &[u8], reply: &mut [u8]) -> Ended
    requires { (room ≤ length reply.old) × (length diagnostics.now ≡ channels) }
    ensures { left result reply.new tt
        ≡ leaves (diagnostic_of room diagnostics.now field.now) reply.old tt }
{
    let count = field.len();
    if count == 0 || room / 5 < count || !are_channels(field) {
        return Err(CommandError::Refused);
    }
    show_channels(diagnostics, field, reply);
    Ok(5 * count)
}
