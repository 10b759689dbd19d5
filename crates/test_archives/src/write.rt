// Call 5: the writer. The file of the case holds the records.
use crate::cases::Case;
use crate::lent::{RUBBISH_BYTE, room};
use crate::print;
use std::io;
use std::io::Write;
use written::Written;

// Prints the answer, and the hash of the whole output.
pub fn print_answer(out: &mut impl Write, answer: Written, output: &[u8]) -> io::Result<()> {
    print::number(out, ": number ", answer.number)?;
    print::number(out, " place ", answer.place)?;
    print::number(out, " length ", answer.length)?;
    let digest = sha256::finish(sha256::absorb(sha256::begin(), output));
    print::hex(out, " output ", &digest)
}

// Writes the records with the metadata and counts of a case and all of `output` lent, and prints the answer.
fn answer(
    out: &mut impl Write,
    records: &[u8],
    case: Case<'_>,
    output: &mut [u8],
) -> io::Result<()> {
    let metadata = case.query.start;
    let per_block = case.offset;
    let per_index = case.length;
    print::hex(out, " write ", metadata)?;
    print::number(out, " ", per_block)?;
    print::number(out, " ", per_index)?;
    print::number(out, " ", output.len() as u64)?;
    let answer = writer::write(metadata, records, per_block, per_index, output);
    print_answer(out, answer, output)
}

pub fn run(out: &mut impl Write, records: &[u8], case: Case<'_>) -> io::Result<()> {
    let mut output = [RUBBISH_BYTE; 65536];
    let length = room(case.result_places, &output);
    answer(out, records, case, &mut output[..length])
}
