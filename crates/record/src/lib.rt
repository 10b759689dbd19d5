// A record as a part of the file.
#![tactic(auto)]

ghost use Rattle.std.specs.Prelude.{◌≡◌, ◌+◌};
ghost use Rattle.record.specs.Record.{is_within, part_start, part_of, record_of};

use part::Part;

// Whether the `length` bytes from `offset` on lie within the file.
#[tactic(auto, unfolding(crate::specs::Record::is_within))]
pub fn is_within(file: &[u8], offset: u64, length: u64) -> bool
    ensures { result ≡ is_within file.now offset length }
{
    let size = file.len() as u64;
    offset <= size && length <= size - offset
}

// Where the part lies: `length` bytes from `offset` on, or no bytes at 0 where those don't lie within the file.
#[tactic(auto, unfolding(crate::specs::Record::part_of, crate::specs::Record::part_start, crate::specs::Record::part_length))]
pub fn part_of(file: &[u8], offset: u64, length: u64) -> Part
    ensures { result ≡ part_of file.now offset length }
{
    if is_within(file, offset, length) {
        Part {
            offset: offset as usize,
            length: length as usize,
        }
    } else {
        Part::NONE
    }
}

// The bytes of the part: that very part of the file.
#[tactic(auto, unfolding(crate::specs::Record::part_of, crate::specs::Record::record_of), using(crate::proofs::RecordLaws::part_fits))]
pub fn record(file: &[u8], offset: u64, length: u64) -> &[u8]
    ensures result_value { result.now ≡ record_of file.now offset length }
    ensures ref_ptr_value { result.ref_ptr ≡ (file.entry.ref_ptr.0, file.entry.ref_ptr.1 + part_start file.now offset length) }
{
    part_of(file, offset, length).of(file)
}
