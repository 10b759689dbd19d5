// Refusals 18, 19 and 20 on the work list.
ghost use Rattle.std.specs.Prelude.{ℕ, ◌≤◌, ◌<◌, ◌≡◌, length, IfSome};
ghost use mathlib.Core.List.{List, [], Memᴰ};
ghost use Rattle.outcome.specs.Fault.{said};
ghost use Rattle.payload.specs.Payload as payloads;
ghost use Rattle.payload.specs.Answers.{entry_in};
ghost use Rattle.block.specs.Block.{Block};
ghost use Rattle.block.specs.Survey.{ordinary};
ghost use Rattle.block.specs.Laid.{laid_from, laid_items};
ghost use Rattle.tree.specs.Stages.{each, named_rightly};
ghost use Rattle.check_names.specs.Names.{names_of, entries_of, marked, WordsKept, Named, EntriesSeen, AllSeen};

use crate::starts::{NAMED, fill, find};
use framing::{Frame, frame_at};
use header::Header;
use outcome::{Fault, Refusal};
use payload::{Entry, entry_at};

// A word gets one more naming.
#[tactic(auto, unfolding(crate::specs::Names::marked))]
fn mark(word: &mut u64)
    ensures { word.new ≡ marked word.old }
{
    if *word / NAMED < 2 {
        *word += NAMED;
    }
}

// The index of the word whose block an entry of an index block of this level names, where that block fits.
fn named(file: &[u8], work: &[u64], level: u8, entry: Entry) -> Option<usize>
    ensures inside { IfSome result (λ i. i < length work.now) }
    ensures value { (from : ℕ) (seen : List payloads.Entry) (s : List ℕ) → WordsKept file.now from seen work.now
        → Named (laid_from file.now from) level (entry_in s entry) result }
{
    let i = find(work, entry.offset)?;
    let frame = frame_at(file, entry.offset as usize).ok()?;
    if frame.size as u64 == entry.size && frame.level as u64 + 1 == level as u64 {
        Some(i)
    } else {
        None
    }
}

// Whether all entries in an index block's frame, up to the first fault, name fitting blocks; each is marked.
fn name_entries(file: &[u8], frame: Frame, work: &mut [u64]) -> bool
    requires { (frame.body < frame.end) × (frame.end ≤ length file.now) }
    ensures { (first : ℕ) (seen : List payloads.Entry) → WordsKept file.now first seen work.old
        → EntriesSeen file.now first frame.level seen (laid_items file.now payloads.entry_at frame) work.new result }
{
    let payload = &file[..frame.end];
    let mut at = frame.body + 1;
    while let Ok(step) = entry_at(payload, at) {
        match named(file, work, frame.level, step.item) {
            Some(i) => mark(&mut work[i]),
            None => return false,
        }
        at = step.next;
    }
    true
}

// The same for the block at an offset, which has entries where it is an index block.
fn name_block(file: &[u8], start: usize, work: &mut [u64]) -> bool
    ensures { (first : ℕ) (seen : List payloads.Entry) (b : Block) → WordsKept file.now first seen work.old
        → Memᴰ b (ordinary (laid_from file.now first)) → b.frame.start ≡ start
        → EntriesSeen file.now first b.frame.level seen b.entries work.new result }
{
    match frame_at(file, start) {
        Ok(frame) => frame.level == 0 || name_entries(file, frame, work),
        Err(_) => true,
    }
}

// 19: the first block in file order with an entry that names no fitting block.
fn name_blocks(file: &[u8], work: &mut [u64]) -> Result<(), Refusal>
    ensures { (first : ℕ) → WordsKept file.now first [] work.old → AllSeen file.now first work.new result }
{
    for i in 0..work.len() {
        let start = work[i] % NAMED;
        if !name_block(file, start as usize, work) {
            return Err(Refusal {
                fault: Fault::EntryTarget,
                place: start,
            });
        }
    }
    Ok(())
}

// 20: the first block in file order that is named otherwise than once, or for the root, never.
fn count_names(work: &[u64], root: u64) -> Result<(), Refusal>
    ensures { (file : List ℕ) (first : ℕ) → WordsKept file first (entries_of (ordinary (laid_from file first))) work.now
        → said result ≡ each (named_rightly (laid_from file first) root) 20 (ordinary (laid_from file first)) }
{
    for word in work {
        let start = *word % NAMED;
        let wanted = if start == root { 0 } else { 1 };
        if *word / NAMED != wanted {
            return Err(Refusal {
                fault: Fault::NamedOnce,
                place: start,
            });
        }
    }
    Ok(())
}

// 18, 19, then 20, with the work list left as it was used; 1 for a file whose starts do not fit in a word.
pub fn naming(file: &[u8], from: usize, root: u64, work: &mut [u64]) -> Result<(), Refusal>
    ensures { said result ≡ names_of file.now from root (length work.old) }
{
    if Header::MAX_FILE < file.len() {
        return Err(Fault::FileTooLong.into());
    }
    let blocks = fill(file, from, work);
    if work.len() < blocks {
        return Err(Fault::WorkRoom.into());
    }
    let words = &mut work[..blocks];
    name_blocks(file, words)?;
    count_names(words, root)
}
