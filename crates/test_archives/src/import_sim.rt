// Call 6: importing a SIM phonebook. The file of the case is the dump.
use crate::cases::Case;
use crate::lent::{RUBBISH_BYTE, room};
use crate::print;
use crate::write::print_answer;
use std::io;
use std::io::Write;

// Imports the dump with the name length of a case and all of `output` lent, and prints the answer.
fn answer(out: &mut impl Write, dump: &[u8], case: Case<'_>, output: &mut [u8]) -> io::Result<()> {
    let name_length = case.offset;
    print::number(out, " import_sim ", name_length)?;
    print::number(out, " ", output.len() as u64)?;
    let answer = sim_import::import_sim(dump, name_length, output);
    print_answer(out, answer, output)
}

pub fn run(out: &mut impl Write, dump: &[u8], case: Case<'_>) -> io::Result<()> {
    let mut output = [RUBBISH_BYTE; 65536];
    let length = room(case.result_places, &output);
    answer(out, dump, case, &mut output[..length])
}
