// The first pass: refusals, and how many records and bytes there will be.
ghost use Rattle.std.specs.Prelude.{◌≡◌, ◌+◌, [], ◌∷◌};
ghost use Rattle.part.specs.Part.{part};
ghost use Rattle.outcome.specs.Fault.{said_at};
ghost use Rattle.sim_import.specs.Import.{not_free, occupied, imported_all};
ghost use Rattle.sim_import.specs.Survey.{survey_of};
ghost use Rattle.sim_import.specs.Steps.{Whole};

use outcome::Fault;
use sim::Dump;

// How many records aren't free, and how many bytes ours of them take.
#[derive(Clone, Copy)]
pub struct Survey {
    pub count: usize,
    pub length: usize,
}

// The record at an offset.
fn survey_record(dump: Dump, at: u64) -> Result<Survey, Fault>
    ensures { said_at 0 result ≡ survey_of (imported_all dump.entry.name_length
        (not_free (part dump.entry.bytes.now at (dump.entry.name_length + 14) ∷ []))) }
{
    let adn = dump.record(at);
    if adn.is_free() {
        return Ok(Survey {
            count: 0,
            length: 0,
        });
    }
    adn.check()?;
    let size = adn.name().len() + adn.rest.len();
    Ok(Survey {
        count: 1,
        length: uleb128::number_length(size as u64) + size,
    })
}

// All records of a dump of whole records.
pub fn survey_dump(dump: Dump) -> Result<Survey, Fault>
    requires { Whole dump.name_length dump.bytes.now }
    ensures { said_at 0 result ≡ survey_of (imported_all dump.entry.name_length (occupied dump.entry.name_length dump.entry.bytes.now)) }
{
    let mut all = Survey {
        count: 0,
        length: 0,
    };
    for at in (0..dump.bytes.len()).step_by(dump.width()) {
        let one = survey_record(dump, at as u64)?;
        all.count += one.count;
        all.length += one.length;
    }
    Ok(all)
}
