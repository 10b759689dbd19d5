// 23 and 24 by one walk down the tree, which carries the last record met.
ghost use Rattle.std.specs.Prelude.{◌+◌, ◌≤◌, ◌≡◌, length};
ghost use Rattle.byte_string.specs.Order.{at_most};
ghost use Rattle.check_walk.specs.Lookup.{bytes_in, records_in};
ghost use Rattle.check_walk.specs.Keys as defs;

use crate::lookup::payload_at;
use part::Part;
use payload::{compare_parts, entry_at, text_at};

// The first of some records, and the last one met: the last of them, or, where there are none, one before. No bytes before any was met.
#[derive(Clone, Copy)]
pub struct Span {
    pub first: Option<Part>,
    pub last: Part,
}

impl Span {
    // No record yet.
    pub const NONE: Span = Span {
        first: None,
        last: Part::NONE,
    };

    // The first record, or no bytes.
    #[tactic(auto, unfolding(crate::specs::Keys::first_of, crate::specs::Lookup::no_part))]
    fn start(self) -> Part
        ensures { result ≡ defs.first_of self }
    {
        self.first.unwrap_or(Part::NONE)
    }

    // These records, and then those of another span.
    #[tactic(auto, unfolding(crate::specs::Keys::span_joined))]
    fn joined(self, next: Span) -> Span
        ensures { result ≡ defs.span_joined self next }
    {
        Span {
            first: self.first.or(next.first),
            last: next.last,
        }
    }
}

// What the walk hands on: the records of the block that it leaves, or the last one before the block that it enters; the first data
// block out of order (23) and the first index block with a key that does not fit (24), 0 for none.
#[derive(Clone, Copy)]
pub struct Keys {
    pub span: Span,
    pub unordered: usize,
    pub misfit: usize,
}

impl Keys {
    // Before the walk.
    pub const NONE: Keys = Keys {
        span: Span::NONE,
        unordered: 0,
        misfit: 0,
    };

    // At the start of an index block: nothing of what it leads to is met yet.
    #[tactic(auto, unfolding(crate::specs::Keys::keys_entering))]
    fn entering(self) -> Keys
        ensures { result ≡ defs.keys_entering self }
    {
        Keys {
            span: Span {
                first: None,
                ..self.span
            },
            ..self
        }
    }
}

// The records that can be read in the frame at an offset.
fn span_at(file: &[u8], at: usize) -> Span
    ensures { result ≡ defs.span_over (records_in file.now at) defs.no_span }
{
    let payload = payload_at(file, at);
    let records = &file[..payload.end()];
    let mut place = payload.offset;
    let mut span = Span::NONE;
    while let Ok(text) = text_at(records, place) {
        span = span.joined(Span {
            first: Some(text),
            last: text,
        });
        place = text.end();
    }
    span
}

// Whether a byte string of the file is at most another.
#[tactic(auto, unfolding(crate::specs::Lookup::bytes_in), using(crate::proofs::KeyLaws::part_order))]
fn part_at_most(file: &[u8], x: Part, y: Part) -> bool
    requires { (x.offset + x.length ≤ length file.now) × (y.offset + y.length ≤ length file.now) }
    ensures { result ≡ at_most (bytes_in file.now x) (bytes_in file.now y) }
{
    compare_parts(file, x, y).at_most()
}

// A data block: it is out of order where its first record is below the last one before.
fn leaf_keys(file: &[u8], at: usize, before: Keys) -> Keys
    requires { defs.Within file.now before.span }
    ensures { result ≡ defs.leaf_keys file.now at before }
{
    let span = span_at(file, at);
    if before.unordered != 0 || part_at_most(file, before.span.last, span.start()) {
        Keys { span, ..before }
    } else {
        Keys {
            span,
            unordered: at,
            ..before
        }
    }
}

// Whether a key lies between the last record before and the first record of what its block leads to.
#[tactic(auto, unfolding(crate::specs::Keys::Within))]
fn fits_between(file: &[u8], key: Part, before: Span, child: Span) -> bool
    requires { (key.offset + key.length ≤ length file.now) × defs.Within file.now before × defs.Within file.now child }
    ensures { result ≡ defs.fits_between file.now (bytes_in file.now key) before child }
{
    part_at_most(file, before.last, key) && part_at_most(file, key, child.start())
}

// The first place of two, where 0 is none.
fn earlier(m: usize, at: usize) -> usize
    ensures { result ≡ defs.earlier m at }
{
    if m == 0 { at } else { m.min(at) }
}

// An entry of the index block at `at`, with what the walk of its block hands back.
fn entry_keys(file: &[u8], at: usize, key: Part, before: Keys, child: Keys) -> Keys
    requires { (key.offset + key.length ≤ length file.now) × defs.Within file.now before.span × defs.Within file.now child.span }
    ensures { result ≡ defs.entry_keys file.now at (bytes_in file.now key) before child }
{
    let span = before.span.joined(child.span);
    if fits_between(file, key, before.span, child.span) {
        Keys { span, ..child }
    } else {
        Keys {
            span,
            misfit: earlier(child.misfit, at),
            ..child
        }
    }
}

// The walk down from the block of this level at an offset.
pub fn keys_under(file: &[u8], at: usize, level: u8, before: Keys) -> Keys
    requires { defs.Within file.now before.span }
    ensures { result ≡ defs.keys_of file.now level at before }
{
    if level == 0 {
        return leaf_keys(file, at, before);
    }
    let payload = payload_at(file, at);
    let entries = &file[..payload.end()];
    let mut place = payload.offset;
    let mut met = before.entering();
    while let Ok(step) = entry_at(entries, place) {
        let child = keys_under(file, step.item.offset as usize, level - 1, met);
        met = entry_keys(file, at, step.item.key, met, child);
        place = step.next;
    }
    met
}
