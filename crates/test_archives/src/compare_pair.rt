// Call 8: comparing the file with a second one.
use crate::cases::Case;
use crate::lent::{RUBBISH, room};
use crate::print;
use std::io;
use std::io::Write;

// Compares the files with all of both lists lent, and prints the answer.
fn answer<'a>(
    out: &mut impl Write,
    first: &'a [u8],
    second: &'a [u8],
    work: &mut [u64],
    list: &mut [u64],
) -> io::Result<()> {
    let answer = comparer::compare_files(first, second, work, list);
    print::number(out, ": number ", answer.number)?;
    print::number(out, " place ", answer.place)?;
    print::number(out, " which ", answer.which)?;
    print::number(out, " differences ", answer.differences)?;
    write!(out, " sum {}", answer.sum)?;
    print::list(out, " list", list)?;
    print::list(out, " work", work)
}

pub fn run<'a>(
    out: &mut impl Write,
    first: &'a [u8],
    second: &'a [u8],
    name: &[u8],
    case: Case<'_>,
) -> io::Result<()> {
    let mut work = [RUBBISH; 128];
    let mut list = [RUBBISH; 128];
    let work_places = room(case.other_places, &work);
    let list_places = room(case.result_places, &list);
    write!(out, " compare ")?;
    out.write_all(name)?;
    print::number(out, " ", work_places as u64)?;
    print::number(out, " ", list_places as u64)?;
    answer(
        out,
        first,
        second,
        &mut work[..work_places],
        &mut list[..list_places],
    )
}
