// The walk down from an opened block.
ghost use Rattle.std.specs.Prelude.{ℕ, ◌≤◌, List, Option, length};
ghost use Rattle.part.specs.declared.Part.{Part};
ghost use Rattle.query.specs.Asked.{asked};
ghost use Rattle.search.specs.Steps as steps;

use crate::child::{admits, child_at};
use crate::opening::open_block;
use framing::Frame;
use matching::{collect_records, has_room};
use outcome::{Fault, Refusal};
use part::Part;
use query::Query;

// How many blocks were opened and how many matches were found.
#[derive(Clone, Copy)]
pub struct Progress {
    pub used: usize,
    pub found: usize,
}

// Walks down from an opened block with the upper bound `above`, after what was opened and found before. It calls itself on each block that
// it opens, one level below.
pub fn walk(
    file: &[u8],
    from: usize,
    f: Frame,
    above: Option<Part>,
    query: Query<'_>,
    opened: &mut [u64],
    results: &mut [u64],
    p: Progress,
) -> Result<Progress, Refusal>
    requires { steps.WalkAsks file.now f above p (length opened.old) (length results.old) }
    ensures { steps.WalkSaid file.now (asked query.entry)
        from f above p opened.old results.old result opened.new results.new }
{
    if f.level == 0 {
        return find(file, f, query, results, p);
    }
    let mut at = f.body + 1;
    let mut so_far = p;
    while let Some(entry) = child_at(file, f, at, above) {
        let child = entry.item;
        at = entry.next;
        if admits(file, child, query) {
            let c = open_block(file, from, child.named, opened, so_far.used)?;
            so_far.used += 1;
            so_far = walk(file, from, c, child.upper, query, opened, results, so_far)?;
        }
    }
    Ok(so_far)
}

// The same for a data block: puts its matching records on the result list; 27 where a match finds no room left.
fn find(
    file: &[u8],
    f: Frame,
    query: Query<'_>,
    results: &mut [u64],
    p: Progress,
) -> Result<Progress, Refusal>
    requires { steps.FindAsks file.now f p (length results.old) }
    ensures { (opened_list : List ℕ) (from : ℕ) (above : Option Part) → p.used ≤ length opened_list
        → steps.WalkSaid file.now (asked query.entry)
        from f above p opened_list results.old result opened_list results.new }
{
    let found = collect_records(&file[..f.end], f.body + 1, query, results, p.found);
    if !has_room(results, found) {
        return Err(Fault::ResultRoom.into());
    }
    Ok(Progress {
        used: p.used,
        found,
    })
}
