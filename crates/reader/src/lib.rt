// Reading a file front to back under a query.
#![tactic(auto)]

ghost use Rattle.std.specs.Prelude.{◌≡◌, length};
ghost use Rattle.output_list.specs.OutputList.{zeros};
ghost use Rattle.outcome.specs.Fault.{said};
ghost use Rattle.query.specs.Asked.{asked};
ghost use Rattle.reader.specs.Read.{read_of, read_answer, read_list, refused_answer, counted};

mod laid;

use crate::laid::collect;
use block::pass::survey;
use header::Header;
use matching::has_room;
use outcome::{Fault, Refusal};
use query::Query;

// Number and place of a refusal, both 0 without one, and how many records match.
#[repr(C)]
#[derive(Clone, Copy)]
pub struct ReadAnswer {
    pub number: u64,
    pub place: u64,
    pub matches: u64,
}

impl From<Refusal> for ReadAnswer {
    ghost from_gives = { λ refusal answer. answer ≡ refused_answer refusal };

    #[tactic(auto, unfolding(crate::specs::Read::refused_answer))]
    fn from(refusal: Refusal) -> ReadAnswer {
        ReadAnswer {
            number: refusal.fault.number(),
            place: refusal.place,
            matches: 0,
        }
    }
}

// Reads the file front to back. The result list holds a number for each match, its offset and length packed, then zeros; after a refusal zeros.
pub fn read(file: &[u8], query: Query<'_>, results: &mut [u64]) -> ReadAnswer
    ensures value { result ≡ read_answer (read_of file.now (asked query.entry) (length results.old)) }
    ensures results_after { results.new ≡ read_list (length results.old) (read_of file.now (asked query.entry) (length results.old)) }
{
    output_list::clear(results);
    match read_file(file, query, results) {
        Ok(found) => ReadAnswer {
            number: 0,
            place: 0,
            matches: found as u64,
        },
        Err(refusal) => refusal.into(),
    }
}

// Reads onto a list of zeros; answers how many records match. After a refusal the list has zeros again.
fn read_file(file: &[u8], query: Query<'_>, results: &mut [u64]) -> Result<usize, Refusal>
    requires { results.old ≡ zeros (length results.old) }
    ensures value { said result ≡ counted (read_of file.now (asked query.entry) (length results.old)) }
    ensures results_after { results.new ≡ read_list (length results.old) (read_of file.now (asked query.entry) (length results.old)) }
{
    let header = Header::read(file)?;
    survey(file, header.blocks, header.root, header.rootsize)?;
    let found = collect(file, header.blocks, query, results);
    if !has_room(results, found) {
        output_list::clear(results);
        return Err(Fault::ResultRoom.into());
    }
    Ok(found)
}
