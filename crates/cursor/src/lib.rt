// The records of a file one after the other, over the ends of its blocks. The file's blocks have been tested before; on any other bytes
// these are the records that can be read.
#![tactic(auto)]

ghost use Rattle.std.specs.Prelude.{cond, List, ◌≡◌, ℕ, ◌+◌, ◌^◌, ◌<◌};
ghost use Rattle.block.specs.Block.{is_data};
ghost use Rattle.block.specs.Laid.{laid_from};
ghost use Rattle.block.specs.Survey.{records_of};
ghost use Rattle.cursor.specs.Cursor.{following, behind, record_said, RecordWithin};

use framing::{Frame, frame_at};
use part::Part;
use payload::text_at;

// Where reading goes on: at `at` in a payload that ends at `end`, and after it with the block at `block`.
#[derive(Clone, Copy)]
pub struct Cursor {
    pub at: usize,
    pub end: usize,
    pub block: usize,
}

// The record that follows a cursor, if any, and the cursor just in front of it. Where none follows, none follows that cursor either.
#[derive(Clone, Copy)]
pub struct Found {
    pub text: Option<Part>,
    pub here: Cursor,
}

impl Cursor {
    // The cursor in front of the blocks from an offset on.
    #[tactic(auto, using(crate::proofs::CursorLaws::follow_start))]
    pub fn at_block(from: usize) -> Cursor
        ensures { (file : List ℕ) → following file result ≡ records_of (laid_from file from) }
    {
        Cursor {
            at: 0,
            end: 0,
            block: from,
        }
    }

    // The cursor behind a record of the payload.
    #[tactic(auto, unfolding(crate::specs::Cursor::behind))]
    pub fn behind(self, text: Part) -> Cursor
        requires { text.offset + text.length < 2 ^ 64 }
        ensures { result ≡ behind self text }
    {
        Cursor {
            at: text.end(),
            ..self
        }
    }

    // The record that follows. Blocks without records are passed, and the cursor that is handed back stands behind them: who goes on with it
    // doesn't pass them again.
    pub fn record_in(self, file: &[u8]) -> Found
        ensures result_value { record_said file.now result ≡ following file.now self }
        ensures record_within { RecordWithin file.now result }
        ensures here_follows { following file.now result.here ≡ following file.now self }
    {
        let mut here = Cursor {
            end: self.end.min(file.len()),
            ..self
        };
        loop {
            if let Ok(text) = text_at(&file[..here.end], here.at) {
                return Found {
                    text: Some(text),
                    here,
                };
            }
            let Ok(f) = frame_at(file, here.block) else {
                return Found { text: None, here };
            };
            here = Cursor {
                at: f.body + 1,
                end: records_end(f),
                block: here.block + f.size,
            };
        }
    }
}

// Where the records of a frame's payload end: those of a data block where the payload does, and other blocks have none.
#[tactic(auto, unfolding(block::specs::Block::is_data))]
fn records_end(f: Frame) -> usize
    ensures { result ≡ cond (is_data f.level) f.end 0 }
{
    if f.level == 0 { f.end } else { 0 }
}
