// Call 1: reading front to back.
use crate::cases::Case;
use crate::lent::{RUBBISH, room};
use crate::print;
use std::io;
use std::io::Write;

// Reads the file under the query of a case, with all of `results` lent, and prints the answer.
fn answer(
    out: &mut impl Write,
    file: &[u8],
    case: Case<'_>,
    results: &mut [u64],
) -> io::Result<()> {
    let answer = reader::read(file, case.query, results);
    print::query(out, case.query)?;
    print::number(out, ": number ", answer.number)?;
    print::number(out, " place ", answer.place)?;
    print::number(out, " matches ", answer.matches)?;
    print::list(out, " results", results)
}

pub fn run(out: &mut impl Write, file: &[u8], case: Case<'_>) -> io::Result<()> {
    let mut results = [RUBBISH; 128];
    let places = room(case.result_places, &results);
    write!(out, " read")?;
    answer(out, file, case, &mut results[..places])
}
