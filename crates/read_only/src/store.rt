// Stores in EDAC memory that leave read-only bytes as they are: a range of bytes, and a file.
ghost use Rattle.std.specs.Prelude.{◌≡◌, ◌+◌, ◌≤◌, length};
ghost use Rattle.memory.specs.Edac.{edac_size, body_size};
ghost use Rattle.read_only.specs.ReadOnly.{written};
ghost use Rattle.read_only.specs.Files.{file_stored};

use crate::rows::run_from;
use memory::bytes::put;
use memory::edac::{EdacAddress, FileAddress, MODE};

// Stores `bytes` in EDAC memory from `at` on, but leaves read-only bytes as they are.
pub fn store(bytes: &[u8], edac: &mut [u8], at: usize)
    requires { (length edac.old ≡ edac_size) × (at + length bytes.now ≤ edac_size) }
    ensures { edac.new ≡ written edac.old at bytes.now }
{
    let mut at = at;
    let mut rest = bytes;
    while !rest.is_empty() {
        let run = run_from(at);
        let (alike, behind) = rest.split_at(rest.len().min(run.end - at));
        if !run.read_only {
            put(alike, edac, at);
        }
        at += alike.len();
        rest = behind;
    }
}

// Stores a file's body, but leaves a read-only file as it is.
pub fn store_file(edac: &mut [u8], file: FileAddress, body: &[u8])
    requires { (length edac.old ≡ edac_size) × (length body.now ≡ body_size file.0) }
    ensures { edac.new ≡ file_stored edac.old file.0 body.now }
{
    if file.0 == 0 {
        edac[MODE] = body[0]; // It is writable, and so are bytes 0 to 3.
        put(&body[1..], edac, 0);
    } else {
        let at = usize::from(EdacAddress::from(file).0);
        // A file's four bytes are read-only or writable together, so its first one is asked for all.
        if !run_from(at).read_only {
            put(body, edac, at);
        }
    }
}
