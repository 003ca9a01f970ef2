// Walking a list of structures in a data field.
ghost use Rattle.std.specs.Prelude.{◌≡◌, ◌+◌, ◌<◌, ◌≤◌, length, MatchOption};
ghost use Rattle.field.specs.Reading.{past_of};

// The place behind a structure of `width` bytes that stands at a place, or none where no whole one stands there.
fn end_at(field: &[u8], at: usize, width: usize) -> Option<usize>
    ensures { MatchOption result (length field.now < at + width) (λ end. (end ≡ at + width) × (end ≤ length field.now)) }
{
    let end = at.checked_add(width)?;
    if end <= field.len() { Some(end) } else { None }
}

// The same, or the place itself where no whole one stands there.
#[tactic(auto, unfolding(crate::specs::Reading::past_of))]
pub fn past_at(field: &[u8], at: usize, width: usize) -> usize
    ensures { result ≡ past_of field.now at width }
{
    end_at(field, at, width).unwrap_or(at)
}

// A reader over a data field: it holds the field and its place.
#[derive(Clone, Copy)]
pub struct Reader<'a> {
    pub field: &'a [u8],
    pub at: usize,
}

impl<'a> Reader<'a> {
    // The reader at the start of a field.
    pub fn new(field: &'a [u8]) -> Reader<'a>
        ensures { (result.field ≡ field.entry) × (result.at ≡ 0) }
    {
        Reader { field, at: 0 }
    }

    // The reader moved past the structure of `width` bytes at its place, or at the same place where no whole one stands there.
    pub fn next(self, width: usize) -> Reader<'a>
        ensures { (result.field ≡ self.entry.field) × (result.at ≡ past_of self.entry.field.now self.entry.at width) }
    {
        Reader {
            at: past_at(self.field, self.at, width),
            ..self
        }
    }

    // The same, or none where no whole one stands there: for loops.
    pub fn past_whole(self, width: usize) -> Option<Reader<'a>>
        ensures { MatchOption result (length self.entry.field.now < self.entry.at + width)
            (λ r. (r.field ≡ self.entry.field) × (r.at ≡ self.entry.at + width) × (r.at ≤ length self.entry.field.now)) }
    {
        Some(Reader {
            at: end_at(self.field, self.at, width)?,
            ..self
        })
    }
}
