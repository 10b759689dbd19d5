// The records or entries of a payload. A payload is lent as a part `s` of the file that ends where the payload ends, so that offsets
// are those of the file.
#![tactic(auto)]

ghost use Rattle.std.specs.Prelude.{ℕ, ◌+◌, ◌≤◌, ◌≡◌, ◌&&◌, List, length};
ghost use Rattle.byte_string.specs.Order.{at_most, comparison};
ghost use Rattle.outcome.specs.Fault.{number, said_at};
ghost use Rattle.outcome.specs.Outcome.{Outcome};
ghost use Rattle.outcome.specs.declared.Fault.TheVariants.{RecordOrder, KeyOrder};
ghost use Rattle.items.specs.declared.Step.{Step};
ghost use Rattle.outcome.specs.declared.Fault.{Fault};
ghost use Rattle.part.specs.Part.{part};
ghost use Rattle.payload.specs.Payload as payloads;
ghost use Rattle.payload.specs.Answers as answers;

use byte_string::Comparison;
use framing::number_or;
use items::Step;
use outcome::Fault;
use part::Part;

// The record, or the key of an entry, at an offset: a number and that many bytes. Most numbers are of one byte, which is looked at here.
pub fn text_at(s: &[u8], at: usize) -> Result<Part, Fault>
    ensures { (place : ℕ) → answers.text_said place s.now result ≡ payloads.text_at place s.now at }
{
    if at < s.len() {
        let first = s[at] as usize;
        if first < 128 && first < s.len() - at {
            return Ok(Part {
                offset: at + 1,
                length: first,
            });
        }
    }
    text_by_number(s, at)
}

// Likewise, with any number.
fn text_by_number(s: &[u8], at: usize) -> Result<Part, Fault>
    ensures { (place : ℕ) → answers.text_said place s.now result ≡ payloads.text_at place s.now at }
{
    let number = number_or(s, at, Fault::Payload)?;
    if ((s.len() - number.next) as u64) < number.item {
        return Err(Fault::Payload);
    }
    Ok(Part {
        offset: number.next,
        length: number.item as usize,
    })
}

// An entry of an index block: its key, and the offset and full size of the block that it names.
#[derive(Clone, Copy)]
pub struct Entry {
    pub key: Part,
    pub offset: u64,
    pub size: u64,
}

// The entry at an offset: a key and two numbers.
pub fn entry_at(s: &[u8], at: usize) -> Result<Step<Entry>, Fault>
    ensures by_index { (place : ℕ) → answers.entry_said place s.now result ≡ payloads.entry_at place s.now at }
    ensures key_within { answers.KeyWithin s.now result }
{
    let key = text_by_number(s, at)?;
    let offset = number_or(s, key.end(), Fault::Payload)?;
    let size = number_or(s, offset.next, Fault::Payload)?;
    Ok(Step {
        item: Entry {
            key,
            offset: offset.item,
            size: size.item,
        },
        next: size.next,
    })
}

// Compares two byte strings that stand in `s`.
pub fn compare_parts(s: &[u8], x: Part, y: Part) -> Comparison
    requires { (x.offset + x.length ≤ length s.now) × (y.offset + y.length ≤ length s.now) }
    ensures { result ≡ comparison (part s.now x.offset x.length) (part s.now y.offset y.length) }
{
    byte_string::compare(x.of(s), y.of(s))
}

// Whether the byte strings rise up to here: they did so far, and the last one is at most the next.
#[tactic(auto, using(byte_string::proofs::ComparisonLaws::compared))]
fn still_rising(s: &[u8], rising: bool, last: Part, next: Part) -> bool
    requires { (last.offset + last.length ≤ length s.now) × (next.offset + next.length ≤ length s.now) }
    ensures { result ≡ (rising && at_most (part s.now last.offset last.length) (part s.now next.offset next.length)) }
{
    rising && compare_parts(s, last, next).at_most()
}

// What fills a payload: records, or entries.
trait Item {
    // What an item is, the one at an offset, and its byte string, by which items rise.
    ghost Meaning: { Type 0 };

    ghost step_at: { ℕ → List ℕ → ℕ → Outcome (Step Meaning) };

    ghost text_of: { Meaning → payloads.Text };

    // Why items that do not rise are refused.
    ghost UNSORTED: { Fault };

    const UNSORTED: Fault;

    // The byte string of the item at an offset, and where the next item begins.
    fn read(s: &[u8], at: usize) -> Result<Step<Part>, Fault>
        ensures { answers.ItemRead step_at text_of s.now at result };
}

// The records of a data block.
struct Record;

impl Item for Record {
    ghost Meaning = { payloads.Text };

    ghost step_at = { payloads.text_at };

    ghost text_of = { λ r. r };

    ghost UNSORTED = { RecordOrder };

    const UNSORTED: Fault = Fault::RecordOrder;

    fn read(s: &[u8], at: usize) -> Result<Step<Part>, Fault> {
        let item = text_at(s, at)?;
        Ok(Step {
            item,
            next: item.end(),
        })
    }
}

// The entries of an index block, which rise by their keys.
impl Item for Entry {
    ghost Meaning = { payloads.Entry };

    ghost step_at = { payloads.entry_at };

    ghost text_of = { λ e. e.key };

    ghost UNSORTED = { KeyOrder };

    const UNSORTED: Fault = Fault::KeyOrder;

    fn read(s: &[u8], at: usize) -> Result<Step<Part>, Fault> {
        let entry = entry_at(s, at)?;
        Ok(Step {
            item: entry.item.key,
            next: entry.next,
        })
    }
}

// The items from an offset to the end of `s`: one or more (15), which fill it (11, 12, 15) and rise.
fn items_at<T: Item>(s: &[u8], from: usize) -> Result<usize, Fault>
    ensures { (place : ℕ) → said_at place result ≡ answers.counted
        (payloads.payload_at (T.step_at place s.now) T.text_of (number T.UNSORTED) place (length s.now) from) }
{
    if s.len() <= from {
        return Err(Fault::Payload);
    }
    let mut at = from;
    let mut count: usize = 0;
    let mut rising = true;
    let mut last = Part {
        offset: from,
        length: 0,
    };
    while at < s.len() {
        let next = T::read(s, at)?;
        rising = still_rising(s, rising, last, next.item);
        last = next.item;
        at = next.next;
        count += 1;
    }
    if rising { Ok(count) } else { Err(T::UNSORTED) }
}

// The records of a data block from an offset to the end of `s`: one or more (15), which fill it (11, 12, 15) and rise (16).
pub fn records_at(s: &[u8], from: usize) -> Result<usize, Fault>
    ensures { (place : ℕ) → said_at place result ≡ answers.counted (payloads.records_at place s.now from) }
{
    items_at::<Record>(s, from)
}

// The entries of an index block from an offset to the end of `s`: one or more (15), which fill it (11, 12, 15) and whose keys rise (21).
pub fn entries_at(s: &[u8], from: usize) -> Result<usize, Fault>
    ensures { (place : ℕ) → said_at place result ≡ answers.counted (payloads.entries_at place s.now from) }
{
    items_at::<Entry>(s, from)
}
