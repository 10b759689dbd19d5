// Importing a dump of a SIM phonebook: records in the form that the writer takes, sorted, with no memory beyond the output.
//
// A first pass finds refusals, and how many bytes the records take. The last 8 bytes of those for each record then hold the records' offsets in
// the dump, which are sorted there; and the records are put from the front on, over offsets that have been read. A record takes at least 15 bytes.
#![tactic(auto)]

ghost use Rattle.std.specs.Prelude.{◌≡◌, length};
ghost use Rattle.outcome.specs.Fault.{said_at};
ghost use Rattle.written.specs.Written.{written_answer, written_output};
ghost use Rattle.sim_import.specs.Import.{import_of};
ghost use Rattle.sim_import.specs.Steps.{length_of};

mod records;
mod survey;

use crate::records::put_sorted;
use crate::survey::survey_dump;
use outcome::Fault;
use sim::Dump;
use written::Written;

// The longest name field.
const MAX_NAME: u64 = 241;

// Puts the records of a dump into an output, with zeros after them, and answers how many bytes they take; after a refusal the output is zeros.
fn import(bytes: &[u8], name_length: u64, output: &mut [u8]) -> Result<usize, Fault>
    ensures value { said_at 0 result ≡ length_of (import_of bytes.now name_length (length output.old)) }
    ensures output_after { output.new ≡ written_output (length output.old) (import_of bytes.now name_length (length output.old)) }
{
    output_bytes::clear(output);
    if MAX_NAME < name_length {
        return Err(Fault::Dump);
    }
    let dump = Dump {
        bytes,
        name_length: name_length as u8,
    };
    if bytes.len() % dump.width() != 0 {
        return Err(Fault::Dump);
    }
    let found = survey_dump(dump)?;
    if output.len() < found.length {
        return Err(Fault::OutputRoom);
    }
    put_sorted(dump, &mut output[..found.length], found.count);
    Ok(found.length)
}

// Imports a dump whose records have a name field of `name_length` bytes. The output holds the records and zeros after them; after a refusal zeros.
pub fn import_sim(dump: &[u8], name_length: u64, output: &mut [u8]) -> Written
    ensures value { result ≡ written_answer (import_of dump.now name_length (length output.old)) }
    ensures output_after { output.new ≡ written_output (length output.old)
        (import_of dump.now name_length (length output.old)) }
{
    match import(dump, name_length, output) {
        Ok(length) => Written {
            number: 0,
            place: 0,
            length: length as u64,
        },
        Err(fault) => Written::from(fault),
    }
}
