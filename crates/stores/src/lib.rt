// The stores of a finished file, by which it is written so that a power cut leaves no wrong one.
#![tactic(auto)]

ghost use Rattle.std.specs.Prelude.{true, ◌&&◌, ◌-◌, ◌≤◌, ◌≡◌};
ghost use Rattle.stores.specs.FileStores.{has_stores, store_part};

use header::Header;
use part::Part;

// How long a magic is.
const MAGIC: usize = 8;

// Where store i (0 to 3) of a finished file goes, and how long it is; no bytes at 0 where there is none. The bytes are the file's own there,
// those of store 0 the unfinished magic.
pub fn store(file: &[u8], i: u64) -> Part
    ensures { result ≡ store_part file.now i }
{
    if !has_stores(file) {
        return Part::NONE;
    }
    let blocks = Header::AROUND + endian::le64_at(file, Header::EXTENT_AT) as usize;
    match i {
        0 | 3 => part(0, MAGIC),
        1 => part(blocks, file.len()),
        2 => part(MAGIC, blocks),
        _ => Part::NONE,
    }
}

// The bytes from `from` up to `end`.
fn part(from: usize, end: usize) -> Part
    requires { from ≤ end }
    ensures { result ≡ record { offset = from; length = end - from } }
{
    Part {
        offset: from,
        length: end - from,
    }
}

// Whether the bytes begin with the magic of a finished file, and hold their header.
#[tactic(auto, unfolding(crate::specs::FileStores::has_stores))]
fn has_stores(file: &[u8]) -> bool
    ensures { result ≡ has_stores file.now }
{
    header::has_magic(file) && header::holds_header(file)
}
