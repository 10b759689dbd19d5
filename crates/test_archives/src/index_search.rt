// Call 3: the index search.
use crate::cases::Case;
use crate::lent::{RUBBISH, room};
use crate::print;
use std::io;
use std::io::Write;

// Searches the file under the query of a case, with all of both lists lent, and prints the answer.
fn answer(
    out: &mut impl Write,
    file: &[u8],
    case: Case<'_>,
    opened: &mut [u64],
    results: &mut [u64],
) -> io::Result<()> {
    let answer = search::search(file, case.query, opened, results);
    print::query(out, case.query)?;
    print::number(out, ": number ", answer.number)?;
    print::number(out, " place ", answer.place)?;
    print::number(out, " matches ", answer.matches)?;
    print::number(out, " opened ", answer.opened)?;
    print::list(out, " openedlist", opened)?;
    print::list(out, " results", results)
}

pub fn run(out: &mut impl Write, file: &[u8], case: Case<'_>) -> io::Result<()> {
    let mut opened = [RUBBISH; 128];
    let mut results = [RUBBISH; 128];
    let opened_places = room(case.other_places, &opened);
    let result_places = room(case.result_places, &results);
    write!(out, " search")?;
    answer(
        out,
        file,
        case,
        &mut opened[..opened_places],
        &mut results[..result_places],
    )
}
