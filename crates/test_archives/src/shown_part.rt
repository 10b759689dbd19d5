// Call 9: handing back a part of the file or of a second one.
use crate::cases::Case;
use crate::print;
use shown::place::part_shown;
use shown::shown;
use std::io;
use std::io::Write;

pub fn run<'a>(
    out: &mut impl Write,
    first: &'a [u8],
    second: &'a [u8],
    name: &[u8],
    case: Case<'_>,
) -> io::Result<()> {
    let which = case.result_places;
    let offset = case.offset;
    let length = case.length;
    write!(out, " shown ")?;
    out.write_all(name)?;
    print::number(out, " ", which)?;
    print::number(out, " ", offset)?;
    print::number(out, " ", length)?;
    let place = part_shown(first, second, which, offset, length);
    print::number(out, ": which ", place.which)?;
    print::number(out, " part ", place.offset as u64)?;
    print::number(out, " ", place.length as u64)?;
    let found = shown(first, second, which, offset, length);
    print::hex(out, " bytes ", found)
}
