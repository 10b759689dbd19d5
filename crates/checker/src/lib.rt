// The check: refusals 1 to 25 in the checking order. The header, the block stage and 17 here, 18 to 20 (crate `check_names`), 22 to 24
// (crate `check_walk`) and 25 (crate `check_hash`). The work list is cleared at the end.
#![tactic(auto)]

ghost use Rattle.std.specs.Prelude.{◌≡◌, length};
ghost use Rattle.output_list.specs.OutputList.{zeros};
ghost use Rattle.outcome.specs.Fault.{said};
ghost use Rattle.checker.specs.Check.{check_of, check_answer, laid_tree_of};
ghost use Rattle.checker.specs.Reported.{refused_as, reported};

use block::pass::survey;
use check_hash::check_hash;
use check_names::check_names;
use check_walk::check_walk;
use header::Header;
use outcome::{Fault, Refusal};
use output_list::clear;

// Number and place of a refusal, both 0 without one, and how many ordinary blocks and records the file has, both 0 after one.
#[repr(C)]
#[derive(Clone, Copy)]
pub struct Checked {
    pub number: u64,
    pub place: u64,
    pub blocks: u64,
    pub records: u64,
}

impl From<Refusal> for Checked {
    ghost from_gives = { λ refusal checked. checked ≡ refused_as refusal };

    #[tactic(auto, unfolding(crate::specs::Reported::refused_as))]
    fn from(refusal: Refusal) -> Checked {
        Checked {
            number: refusal.fault.number(),
            place: refusal.place,
            blocks: 0,
            records: 0,
        }
    }
}

// Checks the file. The work list needs a place for each ordinary block (18); it holds zeros afterwards.
#[tactic(auto, unfolding(crate::specs::Reported::reported))]
pub fn check(file: &[u8], work: &mut [u64]) -> Checked
    ensures value { result ≡ check_answer (check_of file.now (length work.old)) }
    ensures work_after { work.new ≡ zeros (length work.old) }
{
    let found = check_file(file, work);
    clear(work);
    match found {
        Ok(checked) => checked,
        Err(refusal) => refusal.into(),
    }
}

// The same, with the work list as it is left.
fn check_file(file: &[u8], work: &mut [u64]) -> Result<Checked, Refusal>
    ensures { reported result ≡ check_answer (check_of file.now (length work.old)) }
{
    let header = Header::read(file)?;
    let stage = survey(file, header.blocks, header.root, header.rootsize)?;
    if !stage.root {
        return Err(Fault::Root.into());
    }
    check_tree(file, header.blocks, header.root, work)?;
    Ok(Checked {
        number: 0,
        place: 0,
        blocks: stage.blocks as u64,
        records: stage.records as u64,
    })
}

// 18 to 25, of the blocks from an offset on as they lie in the file.
fn check_tree(file: &[u8], from: usize, root: u64, work: &mut [u64]) -> Result<(), Refusal>
    ensures { said result ≡ laid_tree_of file.now from root (length work.old) }
{
    check_names(file, from, root, work)?;
    check_walk(file, root)?;
    check_hash(file, from)
}
