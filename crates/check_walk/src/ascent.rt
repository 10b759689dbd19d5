// 22: going through the tree from the root in entry order meets data blocks at rising offsets.
ghost use Rattle.std.specs.Prelude.{◌≡◌, length};
ghost use Rattle.outcome.specs.Fault.{said};
ghost use Rattle.check_walk.specs.Ascent.{ascent_of, leaf_of};

use crate::lookup::payload_at;
use outcome::{Fault, Refusal};
use payload::entry_at;

// A data block in a file of `long` bytes: the least offset that the next one may have.
fn leaf(long: usize, at: usize, least: usize) -> Result<usize, Refusal>
    ensures { said result ≡ leaf_of long at least }
{
    if least <= at && at < long {
        Ok(at + 1)
    } else {
        Err(Refusal {
            fault: Fault::WalkOrder,
            place: at as u64,
        })
    }
}

// The walk down from the block of this level at an offset: the least offset that the next data block may have.
pub fn ascend(file: &[u8], at: usize, level: u8, least: usize) -> Result<usize, Refusal>
    ensures { said result ≡ ascent_of file.now level at least }
{
    if level == 0 {
        return leaf(file.len(), at, least);
    }
    let payload = payload_at(file, at);
    let entries = &file[..payload.end()];
    let mut place = payload.offset;
    let mut low = least;
    while let Ok(step) = entry_at(entries, place) {
        low = ascend(file, step.item.offset as usize, level - 1, low)?;
        place = step.next;
    }
    Ok(low)
}
