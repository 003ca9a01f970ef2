// The counts among the diagnostics.
ghost use Rattle.std.specs.Prelude.{◌≡◌};
ghost use Rattle.memory.specs.Counts.{counted_up};

// How many diagnostics there are.
pub const CHANNELS: usize = 31;

// Adds one to a channel, which stays at its largest value. A channel that there is not changes nothing.
#[tactic(auto, unfolding(crate::specs::Counts::counted_up))]
pub fn count_up(diagnostics: &mut [u32], channel: usize)
    ensures { diagnostics.new ≡ counted_up diagnostics.old channel }
{
    // of what `get_mut` leaves in a slice std says nothing
    if channel < diagnostics.len() {
        diagnostics[channel] = diagnostics[channel].saturating_add(1);
    }
}
