// Call 4: handing back a record.
use crate::cases::Case;
use crate::print;
use record::{is_within, record};
use std::io;
use std::io::Write;

pub fn run(out: &mut impl Write, file: &[u8], case: Case<'_>) -> io::Result<()> {
    let offset = case.offset;
    let length = case.length;
    print::number(out, " record ", offset)?;
    print::number(out, " ", length)?;
    if is_within(file, offset, length) {
        print::number(out, ": within yes part ", offset)?;
    } else {
        write!(out, ": within no part 0")?;
    }
    let found = record(file, offset, length);
    print::number(out, " ", found.len() as u64)?;
    print::hex(out, " bytes ", found)
}
