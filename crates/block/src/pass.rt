// A whole block at an offset, and the pass over all blocks of a file, front to back.
ghost use Rattle.std.specs.Prelude.{◌+◌, ◌≤◌, ◌<◌, ◌≡◌, length};
ghost use Rattle.block.specs.Block as blocks;
ghost use Rattle.block.specs.Survey as surveys;
ghost use Rattle.block.specs.Answers as answers;
ghost use Rattle.outcome.specs.Fault.{said_at, said};

use crate::{Survey, Tallied};
use framing::{Frame, sound_frame_at};
use outcome::{Fault, Refusal};
use payload::{entries_at, records_at};

// The block at an offset, with every test of one block (10 to 16, 21).
#[tactic(auto, unfolding(outcome::specs::Fault::said_at), using(crate::proofs::BlockLaws::block_rules))]
pub fn block_at(file: &[u8], at: usize) -> Result<Tallied, Fault>
    ensures { said_at at result ≡ answers.tallied (blocks.block_at file.now at) }
{
    let frame = sound_frame_at(file, at)?;
    block_in(file, frame)
}

// The block that a sound frame encloses.
pub fn block_in(file: &[u8], f: Frame) -> Result<Tallied, Fault>
    requires { (f.body < f.end) × (f.end ≤ length file.now) }
    ensures { said_at f.start result ≡ answers.tallied (blocks.block_in file.now f) }
{
    let payload = &file[..f.end];
    let from = f.body + 1;
    let mut records = 0;
    if f.level == 0 {
        records = records_at(payload, from)?;
    } else if f.is_ordinary() {
        entries_at(payload, from)?;
    }
    Ok(Tallied { frame: f, records })
}

// Whether it is an index block's frame, with this start and full size.
#[tactic(auto, unfolding(crate::specs::Survey::is_root))]
fn is_root(f: Frame, root: u64, rootsize: u64) -> bool
    ensures { result ≡ surveys.is_root root rootsize f }
{
    f.start as u64 == root && f.size as u64 == rootsize && 0 < f.level && f.is_ordinary()
}

// The block stage: every block from an offset to the file's end, front to back. `root` and `rootsize` are the header's.
pub fn survey(file: &[u8], from: usize, root: u64, rootsize: u64) -> Result<Survey, Refusal>
    ensures { said result ≡ surveys.survey_of file.now from root rootsize }
{
    let mut at = from;
    let mut seen = Survey {
        blocks: 0,
        records: 0,
        root: false,
    };
    while at < file.len() {
        let block = block_at(file, at).map_err(|fault| Refusal {
            fault,
            place: at as u64,
        })?;
        seen.blocks += usize::from(block.frame.is_ordinary());
        seen.records += block.records;
        seen.root |= is_root(block.frame, root, rootsize);
        at += block.frame.size;
    }
    Ok(seen)
}
