// 25: the header's hash is that of the payloads of the data blocks, joined in file order.
#![tactic(auto)]

ghost use Rattle.std.specs.Prelude.{◌≤◌, ◌^◌, ◌≡◌, length, drop};
ghost use Rattle.byte_string.specs.Order.{begins};
ghost use Rattle.sha256.specs.Sha256 as sha;
ghost use Rattle.sha256.specs.State.{Holds};
ghost use Rattle.outcome.specs.Fault.{said};
ghost use Rattle.block.specs.Laid.{laid_from};
ghost use Rattle.tree.specs.Stages.{payloads};
ghost use Rattle.check_hash.specs.Hash.{hash_of};

use framing::frame_at;
use header::Header;
use outcome::{Fault, Refusal};
use sha256::State;

// Checks the hash of a file whose blocks begin at `from`: 25 where it is wrong. A file that is too long gets 1, since its hash is not taken.
#[tactic(auto, unfolding(outcome::specs::Fault::said, outcome::specs::Fault::number, outcome::specs::Fault::at_front, outcome::specs::Outcome::must), using(crate::proofs::HashLaws::hash_long, crate::proofs::HashLaws::hash_tested))]
pub fn check_hash(file: &[u8], from: usize) -> Result<(), Refusal>
    ensures { said result ≡ hash_of file.now from }
{
    if Header::MAX_FILE < file.len() {
        return Err(Fault::FileTooLong.into());
    }
    if hash_right(file, from) {
        Ok(())
    } else {
        Err(Fault::Hash.into())
    }
}

// Whether the header's hash is that of the blocks from an offset on.
fn hash_right(file: &[u8], from: usize) -> bool
    requires { length file.now ≤ 2 ^ 30 }
    ensures { result ≡ begins (sha.sha256 (payloads file.now (laid_from file.now from))) (drop 40 file.now) }
{
    Header::HASH_AT <= file.len()
        && {
            let digest = sha256::finish(hashed(file, from));
            byte_string::compare(&digest, &file[Header::HASH_AT..]).begins(digest.len())
        }
}

// The state after all blocks from an offset on, up to the first place where no frame can be read. A data block's payload is absorbed, other
// blocks are passed over.
pub fn hashed(file: &[u8], from: usize) -> State
    ensures { Holds (payloads file.now (laid_from file.now from)) result }
{
    let mut state = sha256::begin();
    let mut at = from;
    while let Ok(frame) = frame_at(file, at) {
        if frame.level == 0 {
            state = sha256::absorb(state, &file[frame.body + 1..frame.end]);
        }
        at += frame.size;
    }
    state
}
