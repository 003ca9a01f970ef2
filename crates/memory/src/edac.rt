// EDAC memory by byte and by file.
ghost use Rattle.std.specs.Prelude.{◌≡◌, ◌+◌, ◌≤◌, length};
ghost use Rattle.memory.specs.Bytes.{stored};
ghost use Rattle.memory.specs.Edac.{edac_size, byte_address, inside_edac, shown_size, file_shown};

use crate::bytes::put;

// How many bytes EDAC memory has.
pub const EDAC_SIZE: usize = 1536;

// Where the mode byte of file 0 stands.
pub const MODE: usize = 0x5c3;

// Counts words of four bytes.
#[derive(Clone, Copy)]
pub struct FileAddress(pub u8);

// Counts bytes.
#[derive(Clone, Copy)]
pub struct EdacAddress(pub u16);

// The address of the file's first byte.
impl From<FileAddress> for EdacAddress {
    ghost from_gives = { λ file at. at.0 ≡ byte_address file.0 };

    fn from(file: FileAddress) -> EdacAddress {
        EdacAddress(4 * u16::from(file.0))
    }
}

impl EdacAddress {
    // Whether a range of `count` bytes from here on lies in EDAC memory.
    pub fn holds(self, count: usize) -> bool
        ensures { result ≡ inside_edac self.0 count }
    {
        count <= EDAC_SIZE && usize::from(self.0) <= EDAC_SIZE - count
    }
}

// Writes what a reply shows of a file from `at` on, and answers the place after it.
pub fn show_file(edac: &[u8], file: FileAddress, reply: &mut [u8], at: usize) -> usize
    requires { (length edac.now ≡ edac_size) × (at + shown_size file.0 ≤ length reply.old) }
    ensures { (result ≡ at + shown_size file.0) × (reply.new ≡ stored reply.old at (file_shown edac.now file.0)) }
{
    let start = usize::from(EdacAddress::from(file).0);
    let bytes = &edac[start..start + 4];
    reply[at] = file.0;
    if file.0 == 0 {
        reply[at + 1] = edac[MODE];
        put(bytes, reply, at + 2);
        at + 6
    } else {
        put(bytes, reply, at + 1);
        at + 5
    }
}
