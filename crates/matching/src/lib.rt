// What reading front to back and the search share: the room of a result list, and putting the matching records of a payload on it.
#![tactic(auto)]

ghost use Rattle.std.specs.Prelude.{ℕ, ◌+◌, ◌-◌, ◌^◌, ◌<◌, leb, length, ◌≡◌};
ghost use Rattle.query.specs.Asked.{asked};
ghost use Rattle.matching.specs.Matching.{matching, records_from};
ghost use Rattle.matching.specs.Packing.{packed};
ghost use Rattle.matching.specs.ResultList.{room_for, with_record, Stored, put_all};

use part::Part;
use payload::text_at;
use query::Query;

// Whether a result list has room for n matches.
#[tactic(auto, unfolding(crate::specs::ResultList::room_for))]
pub fn has_room(results: &[u64], n: usize) -> bool
    ensures { result ≡ leb (room_for n) (length results.now) }
{
    n <= results.len()
}

// A match as one number: its offset times 2^32, plus its length.
#[tactic(auto, unfolding(crate::specs::Packing::packed))]
fn pack(found: Part) -> u64
    requires { (found.offset < 2 ^ 32) × (found.length < 2 ^ 32) }
    ensures { result ≡ packed found.offset found.length }
{
    found.offset as u64 * 4294967296 + found.length as u64
}

// Puts a record after `count` matches, where there is room.
#[tactic(auto, unfolding(crate::specs::ResultList::with_record))]
fn put_match(results: &mut [u64], count: usize, found: Part)
    requires { (found.offset < 2 ^ 32) × (found.length < 2 ^ 32) }
    ensures { results.new ≡ with_record results.old count found.offset found.length }
{
    output_list::put(results, count, pack(found));
}

// Puts the matching records from an offset to the end of `s` after `count` matches; answers how many matches there are then.
pub fn collect_records(
    s: &[u8],
    from: usize,
    query: Query<'_>,
    results: &mut [u64],
    count: usize,
) -> usize
    requires { (count + (length s.now - from) < 2 ^ 64) × (length s.now < 2 ^ 32) }
    ensures { (place : ℕ) → ◌≡◌ {A = Stored} (record { count = result; list = results.new })
        (put_all (record { count = count; list = results.old })
        (matching (asked query.entry) (records_from place s.now from))) }
{
    let mut at = from;
    let mut found = count;
    while let Ok(text) = text_at(s, at) {
        at = text.end();
        if query.matches(text.of(s)) {
            put_match(results, found, text);
            found += 1;
        }
    }
    found
}
