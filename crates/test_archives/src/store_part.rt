// Call 7: where a store of the file goes.
use crate::cases::Case;
use crate::print;
use std::io;
use std::io::Write;

pub fn run(out: &mut impl Write, file: &[u8], case: Case<'_>) -> io::Result<()> {
    let i = case.offset;
    print::number(out, " store ", i)?;
    let found = stores::store(file, i);
    print::number(out, ": offset ", found.offset as u64)?;
    print::number(out, " length ", found.length as u64)
}
