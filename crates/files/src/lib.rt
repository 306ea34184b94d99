// What the programs share: reading a file of limited length.
#![tactic(auto)]

ghost use Rattle.std.specs.Prelude.{◌≡◌, ◌<◌, ◌≤◌, vec_len};

use std::fs::File;
use std::io;
use std::io::Read;
use std::rt::Files;

// The most bytes of a table and of a state set that the programs read.
pub const MOST_TABLE_BYTES: u64 = 4_096;

pub const MOST_SET_BYTES: u64 = 65_536;

// The first bytes of a file, one more than `most` at the most.
// No clause says so: `read_to_end` promises no length where the bytes of its reader are not known.
fn first_bytes<R: Files + AllocGlobal>(rt: &R, path: &str, most: u64) -> io::Result<Vec<u8>> {
    let mut bytes = Vec::new(rt.alloc());
    File::open(rt, path)?
        .take(most.saturating_add(1))
        .read_to_end(&mut bytes)?;
    Ok(bytes)
}

// These bytes, or none where there are more than `most`: then the memory of these is freed.
fn if_at_most<R: AllocGlobal>(rt: &R, bytes: Vec<u8>, most: u64) -> Vec<u8>
    ensures kept { vec_len bytes ≤ most → result ≡ bytes }
    ensures none { most < vec_len bytes → vec_len result ≡ 0 }
{
    if most < bytes.len() as u64 {
        return Vec::new(rt.alloc());
    }
    bytes
}

// The bytes of a file. There are none where the file is missing, cannot be read or has more than `most`.
pub fn read_at_most<R: Files + AllocGlobal>(rt: &R, path: &str, most: u64) -> Vec<u8>
    ensures { vec_len result ≤ most }
{
    let bytes = first_bytes(rt, path, most).unwrap_or_else(|_| Vec::new(rt.alloc()));
    if_at_most(rt, bytes, most)
}
