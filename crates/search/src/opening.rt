// Opening a block: every test of one block.
ghost use Rattle.std.specs.Prelude.{◌≡◌, length};
ghost use Rattle.outcome.specs.Fault.{said};
ghost use Rattle.output_list.specs.OutputList.{with_number};
ghost use Rattle.search.specs.Search.{Walked, root_named, child_named, fitting_block, named_block, open_block};
ghost use Rattle.search.specs.Steps.{frame_of, FrameWithin};

use block::pass::block_in;
use framing::{Frame, sound_frame_at};
use outcome::{Fault, Refusal};

// A block as the header or an entry names it: its offset and full size, the least and the largest level that it may have, and the
// refusal for a wrong offset, size or level.
#[derive(Clone, Copy)]
pub struct Named {
    pub offset: u64,
    pub size: u64,
    pub least: u8,
    pub most: u8,
    pub refusal: Refusal,
}

// The root, which is an index block.
#[tactic(auto, unfolding(crate::specs::Search::root_named))]
pub fn root_named(offset: u64, size: u64) -> Named
    ensures { result ≡ root_named offset size }
{
    Named {
        offset,
        size,
        least: 1,
        most: Frame::LARGEST_LEVEL,
        refusal: Refusal {
            fault: Fault::Root,
            place: 0,
        },
    }
}

// The block of this level that an entry of the index block at `place` names.
#[tactic(auto, unfolding(crate::specs::Search::child_named))]
pub fn child_named(place: usize, level: u8, offset: u64, size: u64) -> Named
    ensures { result ≡ child_named place level offset size }
{
    Named {
        offset,
        size,
        least: level,
        most: level,
        refusal: Refusal {
            fault: Fault::EntryTarget,
            place: place as u64,
        },
    }
}

// The next block to be opened, after `used` others: its offset goes on the list (26 where no place is left), then its tests. Answers its frame.
pub fn open_block(
    file: &[u8],
    from: usize,
    named: Named,
    opened: &mut [u64],
    used: usize,
) -> Result<Frame, Refusal>
    ensures result_value { (s : Walked) → used ≡ length s.opened
        → said result ≡ frame_of (open_block file.now (length opened.old) from named s) }
    ensures opened_after { opened.new ≡ with_number opened.old used named.offset }
{
    if !output_list::put(opened, used, named.offset) {
        return Err(Fault::OpenedRoom.into());
    }
    named_block(file, from, named)
}

// The block that is named; blocks begin at `from`.
fn named_block(file: &[u8], from: usize, named: Named) -> Result<Frame, Refusal>
    ensures { said result ≡ frame_of (named_block file.now from named) }
{
    let offset = named.offset;
    if offset < from as u64 {
        return Err(named.refusal);
    }
    if file.len() as u64 <= offset {
        return Err(named.refusal);
    }
    match sound_frame_at(file, offset as usize) {
        Ok(frame) => fitting_block(file, named, frame),
        Err(fault) => Err(Refusal {
            fault,
            place: offset,
        }),
    }
}

// The block of a sound frame, where size and level fit.
fn fitting_block(file: &[u8], named: Named, f: Frame) -> Result<Frame, Refusal>
    requires { FrameWithin file.now f }
    ensures { said result ≡ frame_of (fitting_block file.now named f) }
{
    if f.size as u64 != named.size {
        return Err(named.refusal);
    }
    if f.level < named.least {
        return Err(named.refusal);
    }
    if named.most < f.level {
        return Err(named.refusal);
    }
    match block_in(file, f) {
        Ok(block) => Ok(block.frame),
        Err(fault) => Err(Refusal {
            fault,
            place: f.start as u64,
        }),
    }
}
