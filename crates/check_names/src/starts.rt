// The starts of the ordinary blocks on the work list: filling them in, and searching among them.
ghost use Rattle.std.specs.Prelude.{◌≤◌, ◌<◌, ◌≡◌, length, IfSome};
ghost use Rattle.block.specs.Survey.{ordinary};
ghost use Rattle.block.specs.Laid.{laid_from};
ghost use Rattle.check_names.specs.Starts.{starts_of, Begins, StartsRise, Located};

use framing::{Frame, frame_at};

// A word is start + 2^30 * c.
pub const NAMED: u64 = 1073741824;

// Goes over the frames from an offset on and stores the start of each ordinary block at the front, while there is room. Answers how many
// ordinary blocks there are.
pub fn fill(file: &[u8], from: usize, work: &mut [u64]) -> usize
    ensures value { result ≡ length (ordinary (laid_from file.now from)) }
    ensures begins { result ≤ length work.old → Begins work.new (starts_of (laid_from file.now from)) }
{
    let mut at = from;
    let mut count: usize = 0;
    while let Ok(frame) = frame_at(file, at) {
        if frame.level <= Frame::LARGEST_LEVEL {
            output_list::put(work, count, at as u64);
            count += 1;
        }
        at += frame.size;
    }
    count
}

// The index of the word with a start.
pub fn find(work: &[u64], start: u64) -> Option<usize>
    ensures inside { IfSome result (λ i. i < length work.now) }
    ensures located { StartsRise work.now → Located work.now start result }
{
    work.binary_search_by_key(&start, |word| *word % NAMED).ok()
}
