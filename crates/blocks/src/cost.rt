// What the CRC of a range costs, as a count.
ghost use Rattle.std.specs.Prelude.{◌≡◌};
ghost use Rattle.blocks.specs.Cost.{range_cost};

use crate::BLOCK_SIZE;

// What a covered block counts less than its bytes: it counts one.
const SPARED: usize = 255;

// How many bytes of the range from `from` up to `to` lie in blocks only partly covered, plus how many blocks are wholly covered. Nothing is
// asked of the two: a range that ends before it starts has no bytes.
#[tactic(auto, using(crate::proofs::Counting::the_cost_in_numbers))]
pub fn range_cost(from: usize, to: usize) -> usize
    ensures { result ≡ range_cost from to }
{
    let size = to.saturating_sub(from);
    let covered = (to / BLOCK_SIZE).saturating_sub(from.div_ceil(BLOCK_SIZE));
    size - covered * SPARED
}
