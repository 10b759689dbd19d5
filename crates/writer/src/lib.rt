// The writer: a file from metadata and records.
#![tactic(auto)]

ghost use Rattle.std.specs.Prelude.{ℕ, ◌≡◌, List, length};
ghost use Rattle.lists.specs.Groups.{groups};
ghost use Rattle.output_list.specs.OutputList.{zeros};
ghost use Rattle.outcome.specs.Outcome.{answer};
ghost use Rattle.outcome.specs.Fault.{said_at};
ghost use Rattle.layout.specs.File.{file_of};
ghost use Rattle.written.specs.Written.{written_answer, written_output};
ghost use Rattle.writer.specs.Write.{records_to_write, write_of};
ghost use Rattle.writer.specs.Steps.{length_of};
ghost use Rattle.file_encoder.specs.Begun.{FilePut};

mod data;
mod input;

use crate::data::put_data;
use crate::input::check_input;
use outcome::Fault;
use written::Written;

// Writes a file: metadata, records (each a number and as many bytes) that rise, how many records a data block and how many entries an index
// block holds. The output holds the file and zeros after it; after a refusal zeros.
pub fn write(
    metadata: &[u8],
    records: &[u8],
    per_block: u64,
    per_index: u64,
    output: &mut [u8],
) -> Written
    ensures value { result ≡ written_answer
        (write_of metadata.now records.now per_block per_index (length output.old)) }
    ensures output_after { output.new ≡ written_output (length output.old)
        (write_of metadata.now records.now per_block per_index (length output.old)) }
{
    output_bytes::clear(output);
    match write_cleared(metadata, records, per_block, per_index, output) {
        Ok(length) => Written {
            number: 0,
            place: 0,
            length: length as u64,
        },
        Err(fault) => fault.into(),
    }
}

// Writes the file into an output of zeros; answers its length. After a refusal the output has zeros again.
fn write_cleared(
    metadata: &[u8],
    records: &[u8],
    per_block: u64,
    per_index: u64,
    output: &mut [u8],
) -> Result<usize, Fault>
    requires { output.old ≡ zeros (length output.old) }
    ensures value { said_at 0 result ≡ length_of (write_of metadata.now records.now per_block per_index (length output.old)) }
    ensures output_after { output.new ≡ written_output (length output.old)
        (write_of metadata.now records.now per_block per_index (length output.old)) }
{
    check_input(metadata, records, per_block, per_index)?;
    let length = put_file(metadata, records, per_block, per_index, output);
    if length.is_none() {
        output_bytes::clear(output);
    }
    length.ok_or(Fault::OutputRoom)
}

// Puts the file into an output of zeros; answers its length, or nothing where it doesn't fit.
fn put_file(
    metadata: &[u8],
    records: &[u8],
    per_block: u64,
    per_index: u64,
    output: &mut [u8],
) -> Option<usize>
    requires { (output.old ≡ zeros (length output.old))
        × ((rs : List (List ℕ)) × (records_to_write metadata.now records.now per_block per_index ≡ answer rs)) }
    ensures { (rs : List (List ℕ)) → records_to_write metadata.now records.now per_block per_index ≡ answer rs
        → FilePut (length output.old) (file_of metadata.now (groups per_block rs) per_index) result output.new }
{
    let from = file_encoder::begin_file(output, metadata)?;
    let to = put_data(output, records, per_block, from)?;
    let hash = sha256::finish(sha256::absorb(sha256::begin(), records));
    file_encoder::finish_file(output, from, to, per_index, hash)
}
