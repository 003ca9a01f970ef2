// GATHER 0x0B.
ghost use Rattle.std.specs.Prelude.{◌≡◌, ◌&&◌, ◌++◌, ◌+◌, ◌≤◌, leb, length, drop};
ghost use Rattle.memory.specs.Bytes.{stretch, stored, begun};
ghost use Rattle.field.specs.Fields.{word16_at};
ghost use Rattle.carrying.specs.Ending.{left, leaves};
ghost use Rattle.edac_commands.specs.Gather.{ranges, range_holds, ranges_hold, ranges_width, ranges_shown, gather_of};

use carrying::{CommandError, Ended};
use field::fields::word16;
use field::reader::Reader;
use memory::bytes::put;
use memory::edac::EdacAddress;

// Whether a range has a count and lies in EDAC memory.
fn range_holds(address: u16, count: u16) -> bool
    ensures { result ≡ range_holds address count }
{
    count != 0 && EdacAddress(address).holds(usize::from(count))
}

// Whether a list ends between two ranges that all hold, and its reply has room. The reply's length is not added up, so that a list
// may be of any length.
fn ranges_taken(room: usize, list: Reader) -> bool
    ensures { result ≡ (ranges_hold (ranges (drop list.entry.at list.entry.field.now)) && leb (ranges_width (ranges (drop list.entry.at list.entry.field.now))) room) }
{
    let mut free = room;
    let mut reader = list;
    while reader.at < reader.field.len() {
        let Some(next) = reader.past_whole(4) else {
            return false; // The list ends inside a range.
        };
        let range = &reader.field[reader.at..next.at];
        let count = word16(range, 2);
        if !range_holds(word16(range, 0), count) {
            return false;
        }
        let size = 4 + usize::from(count);
        if free < size {
            return false;
        }
        free -= size;
        reader = next;
    }
    true
}

// The bytes of a range, as far as they are there: so a list may be shown that nobody judged.
fn bytes_of(edac: &[u8], address: usize, count: usize) -> &[u8]
    ensures { result.now ≡ stretch address count edac.now }
{
    let rest = &edac[address.min(edac.len())..];
    &rest[..count.min(rest.len())]
}

// Shows one range: its address and count, and its bytes. Answers the place after it.
fn show_range(edac: &[u8], range: &[u8], reply: &mut [u8], place: usize) -> usize
    requires { place + (length range.now + word16_at range.now 2) ≤ length reply.old }
    ensures { (result ≡ place + length (range.now ++ stretch (word16_at range.now 0) (word16_at range.now 2) edac.now))
        × (reply.new ≡ stored reply.old place (range.now ++ stretch (word16_at range.now 0) (word16_at range.now 2) edac.now)) }
{
    let bytes = bytes_of(
        edac,
        usize::from(word16(range, 0)),
        usize::from(word16(range, 2)),
    );
    put(range, reply, place);
    put(bytes, reply, place + range.len());
    place + range.len() + bytes.len()
}

// Shows each range of a list, one after the other, up to where the list is cut. Answers the place after the last.
fn show_ranges(edac: &[u8], list: Reader, reply: &mut [u8]) -> usize
    requires { ranges_width (ranges (drop list.at list.field.now)) ≤ length reply.old }
    ensures { (result ≡ length (ranges_shown edac.now (ranges (drop list.entry.at list.entry.field.now))))
        × (reply.new ≡ begun reply.old (ranges_shown edac.now (ranges (drop list.entry.at list.entry.field.now)))) }
{
    let mut place = 0;
    let mut reader = list;
    while reader.at < reader.field.len() {
        let Some(next) = reader.past_whole(4) else {
            return place;
        };
        place = show_range(edac, &reader.field[reader.at..next.at], reply, place);
        reader = next;
    }
    place
}

#[tactic(auto, unfolding(crate::specs::Gather::gather_of))]
pub fn gather(room: usize, edac: &[u8], field: &[u8], reply: &mut [u8]) -> Ended
    requires { room ≤ length reply.old }
    ensures { left result reply.new tt
        ≡ leaves (gather_of room edac.now field.now) reply.old tt }
{
    let list = Reader::new(field);
    if field.is_empty() || !ranges_taken(room, list) {
        return Err(CommandError::Refused);
    }
    Ok(show_ranges(edac, list, reply))
}
