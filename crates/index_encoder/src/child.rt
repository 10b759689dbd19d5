// The next block of a run in an output, as the entry that names it.
ghost use Rattle.std.specs.Prelude.{◌+◌, ◌^◌, ◌<◌, ◌≤◌, ◌≡◌};
ghost use Rattle.std.proofs.Math.Option.{some};
ghost use Rattle.layout.specs.File.{key_for};
ghost use Rattle.index_encoder.specs.Children as children;

use framing::frame_at;
use outcome::Fault;
use part::Part;
use payload::{compare_parts, text_at};

// A block as the entry that names it: the key, the block's last record (of an index block, which needs none, its key), and the full size.
#[derive(Clone, Copy)]
pub struct Child {
    pub key: Part,
    pub last: Part,
    pub size: usize,
}

// Where a run goes on: the offset of the next block, and the record before it, an empty part where there is none. Only a data block's key is
// made by that record.
#[derive(Clone, Copy)]
pub struct Position {
    pub offset: usize,
    pub before: Part,
}

impl Position {
    // Where a run begins.
    #[tactic(auto, unfolding(crate::specs::Children::start_at))]
    pub fn start(offset: usize) -> Position
        ensures { result ≡ children.start_at offset }
    {
        Position {
            offset,
            before: Part::NONE,
        }
    }

    // Where it goes on after the block that stands here.
    pub fn after(self, child: Child) -> Position
        requires { self.offset + child.size < 2 ^ 64 }
        ensures { result ≡ record { offset = self.offset + child.size; before = child.last } }
    {
        Position {
            offset: self.offset + child.size,
            before: child.last,
        }
    }
}

// The key of a data block whose first record is `first`, after the record `before`.
fn key_after(s: &[u8], before: Part, first: Part) -> Part
    requires { children.Within s.now before × children.Within s.now first }
    ensures result_value { children.bytes_of s.now result
        ≡ key_for (some (children.bytes_of s.now before)) (children.bytes_of s.now first) }
    ensures offset_value { (result.offset ≡ first.offset) × (result.length ≤ first.length) }
{
    let agreeing = compare_parts(s, before, first).agreeing;
    // Where all of the first record agrees it is a beginning of the one before, so the records fall.
    let length = if agreeing == before.length || agreeing == first.length {
        agreeing
    } else {
        agreeing + 1
    };
    Part { length, ..first }
}

// The last of the records that stand one after the other in `s`, from `first` to the end.
fn last_record(s: &[u8], first: Part) -> Part
    requires { children.Within s.now first }
    ensures result_value { children.bytes_of s.now result
        ≡ children.last_from s.now (first.offset + first.length) (children.bytes_of s.now first) }
    ensures within { children.Within s.now result }
{
    let mut last = first;
    while let Ok(next) = text_at(s, last.end()) {
        last = next;
    }
    last
}

// The block at a position of `s`.
pub fn child_at(s: &[u8], at: Position) -> Result<Child, Fault>
    requires { children.Within s.now at.before }
    ensures result_value { children.child_said s.now at result ≡ children.child_at s.now at }
    ensures child_within { children.ChildWithin s.now at result }
{
    let frame = frame_at(s, at.offset)?;
    let block = &s[..frame.end];
    let first = text_at(block, frame.body + 1)?;
    if frame.level != 0 {
        return Ok(Child {
            key: first,
            last: first,
            size: frame.size,
        });
    }
    Ok(Child {
        key: key_after(s, at.before, first),
        last: last_record(block, first),
        size: frame.size,
    })
}
