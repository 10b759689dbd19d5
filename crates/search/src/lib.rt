// The index search: the walk down from the root, on any bytes.
#![tactic(auto)]

ghost use Rattle.std.specs.Prelude.{◌≡◌, length};
ghost use Rattle.output_list.specs.OutputList.{zeros};
ghost use Rattle.query.specs.Asked.{asked};
ghost use Rattle.search.specs.Search.{search_of, search_answer, opened_list, result_list, refused_answer};
ghost use Rattle.search.specs.Steps.{ListsClear, Reaches};

mod child;
mod opening;
mod walk;

use crate::opening::{open_block, root_named};
use crate::walk::{Progress, walk};
use header::Header;
use outcome::Refusal;
use query::Query;

// Number and place of a refusal, both 0 without one, how many records match, and how many blocks were opened.
#[repr(C)]
#[derive(Clone, Copy)]
pub struct Found {
    pub number: u64,
    pub place: u64,
    pub matches: u64,
    pub opened: u64,
}

impl From<Refusal> for Found {
    ghost from_gives = { λ refusal answer. answer ≡ refused_answer refusal };

    #[tactic(auto, unfolding(crate::specs::Search::refused_answer))]
    fn from(refusal: Refusal) -> Found {
        Found {
            number: refusal.fault.number(),
            place: refusal.place,
            matches: 0,
            opened: 0,
        }
    }
}

// Searches the file through its index. The opened list holds the offset of each block opened, in walk order, root first; the result list
// a number for each match, its offset and length packed; then zeros. After a refusal both hold zeros.
pub fn search(file: &[u8], query: Query<'_>, opened: &mut [u64], results: &mut [u64]) -> Found
    ensures value { result ≡ search_answer (search_of file.now (asked query.entry) (length opened.old) (length results.old)) }
    ensures opened_after { opened.new ≡ opened_list (length opened.old) (search_of file.now (asked query.entry)
        (length opened.old) (length results.old)) }
    ensures results_after { results.new ≡ result_list (length results.old) (search_of file.now (asked query.entry)
        (length opened.old) (length results.old)) }
{
    clear_both(opened, results);
    match search_file(file, query, opened, results) {
        Ok(p) => Found {
            number: 0,
            place: 0,
            matches: p.found as u64,
            opened: p.used as u64,
        },
        Err(refusal) => {
            clear_both(opened, results);
            refusal.into()
        },
    }
}

// Every place of both lists becomes 0.
fn clear_both(opened: &mut [u64], results: &mut [u64])
    ensures { (opened.new ≡ zeros (length opened.old)) × (results.new ≡ zeros (length results.old)) }
{
    output_list::clear(opened);
    output_list::clear(results);
}

// The search with both lists all zeros before: opens the root that the header names and walks down from it. After a refusal the lists hold
// anything.
fn search_file(
    file: &[u8],
    query: Query<'_>,
    opened: &mut [u64],
    results: &mut [u64],
) -> Result<Progress, Refusal>
    requires { ListsClear opened.old results.old }
    ensures { Reaches result opened.new results.new (search_of file.now (asked query.entry) (length opened.old) (length results.old)) }
{
    let header = Header::read(file)?;
    let from = header.blocks;
    let named = root_named(header.root, header.rootsize);
    let root = open_block(file, from, named, opened, 0)?;
    let start = Progress { used: 1, found: 0 };
    walk(file, from, root, None, query, opened, results, start)
}
