// Comparing two files: which records are stored a different number of times in them.
//
// Both are checked. Their records then rise, so that one pass over both, in the order of byte strings, finds the copies of each record side
// by side (`merge`).
#![tactic(auto)]

ghost use Rattle.std.specs.Prelude.{◌≡◌, length, pos, ◌-ℤ◌, ◌^◌, ◌≤◌};
ghost use Rattle.output_list.specs.OutputList.{zeros};
ghost use Rattle.outcome.specs.Outcome.{answer};
ghost use Rattle.header.specs.declared.Header.{Header};
ghost use Rattle.header.specs.Header.{header_of, blocks_from};
ghost use Rattle.checker.specs.Check.{check_of};
ghost use Rattle.comparer.specs.Compare.{compare_answer, compare_list};
ghost use Rattle.comparer.specs.Reported.{refused_as, reported, CheckSaid};

mod merge;

use crate::merge::merge;
use checker::check;
use cursor::Cursor;
use header::Header;
use outcome::Fault;
use output_list::clear;
use shown::place::Which;

// Number and place of a refusal, both 0 without one; the file that is refused, 1 or 2, or 0; how many differences there are; and the copies in
// the second file less those in the first, added up over them.
#[repr(C)]
#[derive(Clone, Copy)]
pub struct Compared {
    pub number: u64,
    pub place: u64,
    pub which: u64,
    pub differences: u64,
    pub sum: i64,
}

// Number and place of a refusal, and the file that is refused, if it is one of the files.
#[derive(Clone, Copy)]
struct Refused {
    number: u64,
    place: u64,
    file: Option<Which>,
}

impl From<Refused> for Compared {
    ghost from_gives = { λ refused compared. compared ≡ refused_as refused };

    #[tactic(auto, unfolding(crate::specs::Reported::refused_as, crate::specs::Reported::number_of_file))]
    fn from(refused: Refused) -> Compared {
        Compared {
            number: refused.number,
            place: refused.place,
            which: refused.file.map_or(0, Which::number),
            differences: 0,
            sum: 0,
        }
    }
}

// Where the blocks of a file begin whose header is sound.
#[tactic(auto, unfolding(outcome::specs::Fault::said_at, header::specs::Header::blocks_from))]
fn blocks_of(file: &[u8]) -> usize
    ensures { (h : Header) → header_of file.now ≡ answer h → result ≡ blocks_from h }
{
    match Header::read(file) {
        Ok(h) => h.blocks,
        Err(_) => 0,
    }
}

// A count less another, as a signed number.
fn minus(count: u64, other: u64) -> i64
    requires { (count ≤ 2 ^ 30) × (other ≤ 2 ^ 30) }
    ensures { result ≡ pos count -ℤ pos other }
{
    count as i64 - other as i64
}

// Checks one of the files; answers how many records it has.
#[tactic(auto, using(crate::proofs::CompareLaws::check_counted, crate::proofs::CompareLaws::check_refused))]
fn check_one(file: &[u8], which: Which, work: &mut [u64]) -> Result<u64, Refused>
    ensures value { CheckSaid which result (check_of file.now (length work.old)) }
    ensures work_after { work.new ≡ zeros (length work.old) }
{
    let checked = check(file, work);
    if checked.number == 0 {
        Ok(checked.records)
    } else {
        Err(Refused {
            number: checked.number,
            place: checked.place,
            file: Some(which),
        })
    }
}

// Compares two files, with a list of zeros; after a refusal the list has zeros again.
fn compare_checked(
    first: &[u8],
    second: &[u8],
    work: &mut [u64],
    list: &mut [u64],
) -> Result<Compared, Refused>
    requires { list.old ≡ zeros (length list.old) }
    ensures value { reported result
        ≡ compare_answer first.now second.now (length work.old) (length list.old) }
    ensures list_after { list.new
        ≡ compare_list first.now second.now (length work.old) (length list.old) }
    ensures work_after { work.new ≡ zeros (length work.old) }
{
    let one = check_one(first, Which::First, work)?;
    let two = check_one(second, Which::Second, work)?;
    let a = Cursor::at_block(blocks_of(first));
    let b = Cursor::at_block(blocks_of(second));
    let found = merge(first, a, second, b, list);
    if list.len() / 5 < found {
        clear(list);
        return Err(Refused {
            number: Fault::DifferenceRoom.number(),
            place: 0,
            file: None,
        });
    }
    Ok(Compared {
        number: 0,
        place: 0,
        which: 0,
        differences: found as u64,
        sum: minus(two, one),
    })
}

// Compares two files. The work list needs a place for each ordinary block of either; it holds zeros afterwards. The list holds five numbers for
// each difference, then zeros; after a refusal zeros.
#[tactic(auto, unfolding(crate::specs::Reported::reported))]
pub fn compare_files(first: &[u8], second: &[u8], work: &mut [u64], list: &mut [u64]) -> Compared
    ensures value { result ≡ compare_answer first.now second.now (length work.old) (length list.old) }
    ensures list_after { list.new
        ≡ compare_list first.now second.now (length work.old) (length list.old) }
    ensures work_after { work.new ≡ zeros (length work.old) }
{
    clear(list);
    match compare_checked(first, second, work, list) {
        Ok(compared) => compared,
        Err(refused) => refused.into(),
    }
}
