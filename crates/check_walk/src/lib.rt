// 22 to 24: walks down the tree from the root. They read blocks without their tests and are total; where a file has passed the tests of its
// blocks, 17, 19 and 20, they find what the rules say (`walked_rules` in proofs/).
#![tactic(auto)]

ghost use Rattle.std.specs.Prelude.{◌≡◌};
ghost use Rattle.outcome.specs.Fault.{said};
ghost use Rattle.check_walk.specs.Keys.{no_keys, keys_of};
ghost use Rattle.check_walk.specs.Walk.{keys_said, walked_of};

mod ascent;
mod keys;
mod lookup;

use crate::ascent::ascend;
use crate::keys::{Keys, keys_under};
use crate::lookup::level_at;
use outcome::{Fault, Refusal};

// Checks the order of offsets, records and keys down from the block at `root`: 22, then 23, then 24.
pub fn check_walk(file: &[u8], root: u64) -> Result<(), Refusal>
    ensures { said result ≡ walked_of file.now root }
{
    let at = root as usize;
    let level = level_at(file, at);
    ascend(file, at, level, 0)?;
    check_keys(file, at, level)
}

// 23, then 24, by a walk down from the block of this level at an offset.
fn check_keys(file: &[u8], at: usize, level: u8) -> Result<(), Refusal>
    ensures { said result ≡ keys_said (keys_of file.now level at no_keys) }
{
    let keys = keys_under(file, at, level, Keys::NONE);
    if keys.unordered != 0 {
        return Err(Refusal {
            fault: Fault::BlockOrder,
            place: keys.unordered as u64,
        });
    }
    if keys.misfit != 0 {
        return Err(Refusal {
            fault: Fault::Key,
            place: keys.misfit as u64,
        });
    }
    Ok(())
}
