// READ FILE 0x07.
ghost use Rattle.std.specs.Prelude.{◌≡◌, ◌≤◌, leb, length, drop};
ghost use Rattle.std.proofs.Common.{arith};
ghost use Rattle.memory.specs.Edac.{edac_size, shown_size};
ghost use Rattle.carrying.specs.Ending.{left, leaves};
ghost use Rattle.file_commands.specs.ReadFile.{address_size, files_width, read_file_of};

use crate::showing::{Structure, show_files};
use carrying::{CommandError, Ended};
use field::reader::Reader;

// How many bytes a file takes in a list of structures, and in a reply.
#[tactic(auto, using(memory::proofs::Files::size_of_file_0, memory::proofs::Files::size_of_another))]
pub fn width(file: u8) -> usize
    ensures { result ≡ shown_size file }
{
    if file == 0 { 6 } else { 5 }
}

// Whether the reply to a list has room. Its length is not added up, so that a list may be of any length.
fn files_fit(room: usize, list: Reader) -> bool
    ensures { result ≡ leb (files_width (drop list.entry.at list.entry.field.now)) room }
{
    let mut free = room;
    let mut reader = list;
    while reader.at < reader.field.len() {
        let size = width(reader.field[reader.at]);
        if free < size {
            return false;
        }
        free -= size;
        reader = reader.next(1);
    }
    true
}

// A list of file addresses.
struct Addresses;

impl Structure for Addresses {
    ghost wide = { address_size };

    ghost some = { λ _. Prim.omega arith };

    fn width(_file: u8) -> usize {
        1
    }
}

#[tactic(auto, using(crate::proofs::Lists::all_are_files), unfolding(crate::specs::ReadFile::read_file_of))]
pub fn read_file(room: usize, edac: &[u8], field: &[u8], reply: &mut [u8]) -> Ended
    requires { (room ≤ length reply.old) × (length edac.now ≡ edac_size) }
    ensures { left result reply.new tt
        ≡ leaves (read_file_of room edac.now field.now) reply.old tt }
{
    let list = Reader::new(field);
    if field.is_empty() || !files_fit(room, list) {
        return Err(CommandError::Refused);
    }
    Ok(show_files::<Addresses>(edac, list, reply))
}
