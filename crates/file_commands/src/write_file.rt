// WRITE FILE 0x08, by two operations that serve without a unit too: judging a list, and storing a judged one. The list is judged whole before
// anything is stored, and shown after everything is.
ghost use Rattle.std.specs.Prelude.{◌≡◌, ◌-◌, ◌≤◌, length, drop};
ghost use Rattle.std.proofs.Common.{arith};
ghost use Rattle.memory.specs.Edac.{edac_size, shown_size};
ghost use Rattle.field.specs.Reading.{is_whole};
ghost use Rattle.carrying.specs.Ending.{left, leaves};
ghost use Rattle.file_commands.specs.WriteFile.{listed, files_stored, judge_list_of, storage_of, store_list_of, write_file_of};

use crate::read_file::width;
use crate::showing::{Structure, show_files};
use carrying::{CommandError, Ended, is_limit};
use field::reader::Reader;
use memory::edac::{EDAC_SIZE, FileAddress};
use read_only::store::store_file;

// Whether a list ends between two structures.
fn is_whole(list: Reader) -> bool
    ensures { result ≡ is_whole (listed (drop list.entry.at list.entry.field.now)) }
{
    let mut reader = list;
    while reader.at < reader.field.len() {
        let Some(next) = reader.past_whole(width(reader.field[reader.at])) else {
            return false;
        };
        reader = next;
    }
    true
}

// Judges a list from a place on: whether a WRITE FILE of it is ACKed in application mode where a data field has at most `limit` bytes.
#[tactic(auto, using(crate::proofs::Judging::rest_of_a_list), unfolding(crate::specs::WriteFile::judge_list_of))]
pub fn judge_list(limit: usize, list: &[u8], start: usize) -> bool
    ensures { result ≡ judge_list_of limit (drop start list.now) }
{
    is_limit(limit)
        && start < list.len()
        && list.len() - start <= limit
        && is_whole(Reader {
            field: list,
            at: start,
        })
}

// Stores each file of a list in order, up to where the list is cut.
fn store_files(edac: &mut [u8], list: Reader)
    requires { length edac.old ≡ edac_size }
    ensures { edac.new ≡ files_stored edac.old (listed (drop list.entry.at list.entry.field.now)) }
{
    let mut reader = list;
    while reader.at < reader.field.len() {
        let file = reader.field[reader.at];
        let Some(next) = reader.past_whole(width(file)) else {
            return;
        };
        let body = &reader.field[reader.at + 1..next.at];
        store_file(edac, FileAddress(file), body);
        reader = next;
    }
}

// Why a list is not stored: it is unfit, or EDAC memory is not 1,536 bytes long.
#[derive(Clone, Copy, PartialEq, Eq)]
pub enum StoreError {
    Unfit,
    BadEdac,
}

// Stores a list from a place on, if it is fit: it is judged here whoever judged it before, so that what is stored is what is lent now.
#[tactic(auto, unfolding(crate::specs::WriteFile::store_list_of))]
pub fn store_list(
    limit: usize,
    edac: &mut [u8],
    list: &[u8],
    start: usize,
) -> Result<(), StoreError>
    ensures { storage_of result edac.new ≡ store_list_of limit edac.old (drop start list.now) }
{
    if edac.len() != EDAC_SIZE {
        return Err(StoreError::BadEdac);
    }
    if !judge_list(limit, list, start) {
        return Err(StoreError::Unfit);
    }
    store_files(
        edac,
        Reader {
            field: list,
            at: start,
        },
    );
    Ok(())
}

// A list of files with their bodies.
struct Files;

impl Structure for Files {
    ghost wide = { shown_size };

    ghost some = { λ _. Prim.omega arith };

    fn width(file: u8) -> usize {
        width(file)
    }
}

#[tactic(auto, unfolding(crate::specs::WriteFile::write_file_of, crate::specs::WriteFile::store_list_of))]
pub fn write_file(room: usize, edac: &mut [u8], field: &[u8], reply: &mut [u8]) -> Ended
    requires { (room ≤ length reply.old) × (length edac.old ≡ edac_size) }
    ensures { left result reply.new edac.new
        ≡ leaves (write_file_of room edac.old field.now) reply.old edac.old }
{
    let list = Reader::new(field);
    match store_list(room, edac, list.field, list.at) {
        Ok(()) => Ok(show_files::<Files>(edac, list, reply)),
        Err(_) => Err(CommandError::Refused),
    }
}
