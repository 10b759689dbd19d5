// Call 2: the check.
use crate::cases::Case;
use crate::lent::{RUBBISH, room};
use crate::print;
use std::io;
use std::io::Write;

// Checks the file with all of `work` lent, and prints the answer.
fn answer(out: &mut impl Write, file: &[u8], work: &mut [u64]) -> io::Result<()> {
    let answer = checker::check(file, work);
    print::number(out, ": number ", answer.number)?;
    print::number(out, " place ", answer.place)?;
    print::number(out, " blocks ", answer.blocks)?;
    print::number(out, " records ", answer.records)?;
    print::list(out, " work", work)
}

pub fn run(out: &mut impl Write, file: &[u8], case: Case<'_>) -> io::Result<()> {
    let mut work = [RUBBISH; 128];
    let places = room(case.other_places, &work);
    print::number(out, " check ", places as u64)?;
    answer(out, file, &mut work[..places])
}
