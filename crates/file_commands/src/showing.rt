// What READ FILE and WRITE FILE share: showing the files of a list.
ghost use Rattle.std.specs.Prelude.{◌≡◌, ℕ, ◌≤◌, ◌<◌, length, drop};
ghost use Rattle.memory.specs.Bytes.{begun};
ghost use Rattle.memory.specs.Edac.{edac_size};
ghost use Rattle.field.specs.Reading.{structures};
ghost use Rattle.file_commands.specs.ReadFile.{files_shown, files_width};
ghost use Rattle.file_commands.specs.WriteFile.{files_of};

use field::reader::Reader;
use memory::edac::{FileAddress, show_file};

// What a list of files has of each: a structure of one byte or more, with the file's address first.
pub trait Structure {
    ghost wide: { ℕ → ℕ };

    fn width(file: u8) -> usize
        ensures { result ≡ wide file };

    ghost some: { (file : ℕ) → 0 < wide file };
}

// Shows each file of a list, one after the other, up to where the list is cut. Answers the place after the last.
pub fn show_files<S: Structure>(edac: &[u8], list: Reader, reply: &mut [u8]) -> usize
    requires { (length edac.now ≡ edac_size) × (files_width (files_of (structures S.wide (drop list.at list.field.now))) ≤ length reply.old) }
    ensures { (result ≡ length (files_shown edac.now (files_of (structures S.wide (drop list.entry.at list.entry.field.now)))))
        × (reply.new ≡ begun reply.old (files_shown edac.now (files_of (structures S.wide (drop list.entry.at list.entry.field.now))))) }
{
    let mut place = 0;
    let mut reader = list;
    while reader.at < reader.field.len() {
        let file = reader.field[reader.at];
        let Some(next) = reader.past_whole(S::width(file)) else {
            return place;
        };
        place = show_file(edac, FileAddress(file), reply, place);
        reader = next;
    }
    place
}
