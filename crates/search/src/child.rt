// The block that an entry names, with its bounds as parts of the file, and the test whether it is opened.
ghost use Rattle.std.specs.Prelude.{◌≡◌, List};
ghost use Rattle.outcome.specs.Outcome.{answer};
ghost use Rattle.payload.specs.Payload.{Entry};
ghost use Rattle.query.specs.Asked.{asked, lent};
ghost use Rattle.search.specs.Search.{next_key};
ghost use Rattle.search.specs.Steps as steps;

use crate::opening::{Named, child_named};
use framing::Frame;
use items::Step;
use part::Part;
use payload::{entry_at, text_at};
use query::Query;

// The block of an entry: the entry's key, which is the lower bound, the upper bound, where there is one, and what names the block.
#[derive(Clone, Copy)]
pub struct Child {
    pub key: Part,
    pub upper: Option<Part>,
    pub named: Named,
}

// The block of the entry at an offset of an index block, which has the upper bound `above`, and where the next entry begins, if an entry is
// left.
pub fn child_at(file: &[u8], f: Frame, at: usize, above: Option<Part>) -> Option<Step<Child>>
    requires { steps.IndexWithin file.now f above }
    ensures child_stays { steps.ChildStays file.now f at result }
    ensures child_said { (es : List Entry) → steps.entries_from file.now f at ≡ answer es
        → steps.ChildSaid file.now f above result es }
{
    let Ok(entry) = entry_at(&file[..f.end], at) else {
        return None;
    };
    let named = entry.item;
    Some(Step {
        item: Child {
            key: named.key,
            upper: next_key(file, f, entry.next, above),
            named: child_named(f.start, f.level - 1, named.offset, named.size),
        },
        next: entry.next,
    })
}

// The upper bound of an entry's block: the key of the next entry, which begins at `next`; for the last entry the upper bound of its
// index block.
fn next_key(file: &[u8], f: Frame, next: usize, above: Option<Part>) -> Option<Part>
    requires { steps.IndexWithin file.now f above }
    ensures bound_within { steps.BoundWithin file.now result }
    ensures result_value { (es : List Entry) → steps.entries_from file.now f next ≡ answer es
        → steps.bound_of file.now result ≡ next_key es (steps.bound_of file.now above) }
{
    match text_at(&file[..f.end], next) {
        Ok(key) => Some(key),
        Err(_) => above,
    }
}

// Whether any byte string from the key to the upper bound, both included, matches.
pub fn admits(file: &[u8], child: Child, query: Query<'_>) -> bool
    requires { steps.PartWithin file.now child.key × steps.BoundWithin file.now child.upper }
    ensures { result ≡ steps.admitted file.now (asked query.entry) child }
{
    query.may_match(child.key.of(file), bound(file, child.upper))
}

// The bytes of an upper bound, where there is one.
#[tactic(auto, unfolding(crate::specs::Steps::BoundWithin, crate::specs::Steps::PartWithin, crate::specs::Steps::bound_of, query::specs::Asked::lent))]
fn bound(file: &[u8], upper: Option<Part>) -> Option<&[u8]>
    requires { steps.BoundWithin file.now upper }
    ensures { lent result ≡ steps.bound_of file.now upper }
{
    match upper {
        Some(key) => Some(key.of(file)),
        None => None,
    }
}
