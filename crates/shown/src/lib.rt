// A record as a part of one of two files.
#![tactic(auto)]

ghost use Rattle.std.specs.Prelude.{cond, ◌≡◌, ◌+◌, eqb};
ghost use Rattle.shown.specs.Shown.{part_shown, shown_bytes};

pub mod place;

use crate::place::place;

// The bytes of the part that the numbers name: that very part of the first file where `which` is 1, of the second where it is 2. Where they
// name none, it is the first file's empty part at 0.
pub fn shown<'a>(
    first: &'a [u8],
    second: &'a [u8],
    which: u64,
    offset: u64,
    length: u64,
) -> &'a [u8]
    ensures result_value { result.now ≡ shown_bytes first.now second.now
        (part_shown first.now second.now which offset length) }
    ensures ref_ptr_value { result.ref_ptr ≡ cond (eqb (part_shown first.now second.now which offset length).which 2)
        (second.entry.ref_ptr.0, second.entry.ref_ptr.1 + (part_shown first.now second.now which offset length).offset)
        (first.entry.ref_ptr.0, first.entry.ref_ptr.1 + (part_shown first.now second.now which offset length).offset) }
{
    let (file, part) = place(first, second, which, offset, length);
    part.of(file.of(first, second))
}
