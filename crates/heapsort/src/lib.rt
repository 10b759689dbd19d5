// Heapsort, in place and with no memory of its own: the offsets in the slots of a lent byte slice are sorted by the records that are made of the
// SIM records at those offsets of a dump.
#![tactic(auto)]

ghost use Rattle.std.specs.Prelude.{◌≡◌, ◌+◌, ◌*◌, ◌≤◌, ◌<◌, length};
ghost use Rattle.byte_string.specs.Order.{at_most};
ghost use Rattle.sorting.specs.Sorting.{Sorted};
ghost use Rattle.sorting.specs.Heap.{keys, Heap, Larger, swapped, Sifted};
ghost use Rattle.slots.specs.Slots.{slots};
ghost use Rattle.sim.specs.Adn.{record_at};

use sim::Dump;

// Exchanges two slots.
fn swap(s: &mut [u8], i: usize, j: usize)
    ensures { slots 8 s.new ≡ swapped i j (slots 8 s.old) }
{
    let x = slots::load(s, i);
    let y = slots::load(s, j);
    slots::store(s, i, y);
    slots::store(s, j, x);
}

// Whether the record of slot a is at most that of slot b.
fn slot_at_most(dump: Dump, s: &[u8], a: usize, b: usize) -> bool
    ensures { result ≡ at_most (keys (record_at dump.entry.name_length dump.entry.bytes.now) (slots 8 s.now) a)
        (keys (record_at dump.entry.name_length dump.entry.bytes.now) (slots 8 s.now) b) }
{
    dump.at_most(slots::load(s, a), slots::load(s, b))
}

// The larger of the one or two slots right below p.
fn larger_below(dump: Dump, s: &[u8], p: usize, end: usize) -> usize
    requires { (2 * p + 1 < end) × (end ≤ length (slots 8 s.now)) }
    ensures { Larger (keys (record_at dump.entry.name_length dump.entry.bytes.now) (slots 8 s.now)) p end result }
{
    let left = 2 * p + 1;
    let right = left + 1;
    if right < end && slot_at_most(dump, s, left, right) {
        right
    } else {
        left
    }
}

// Where the slots after `start` are a heap, up to `end`, makes those from `start` on one.
fn sift_down(dump: Dump, s: &mut [u8], start: usize, end: usize)
    requires { (end ≤ length (slots 8 s.old)) × Heap (keys (record_at dump.name_length dump.bytes.now) (slots 8 s.old)) (start + 1) end }
    ensures { Sifted (record_at dump.entry.name_length dump.entry.bytes.now) start end (slots 8 s.old) (slots 8 s.new) }
{
    let mut hole = start;
    while hole < end / 2 {
        let child = larger_below(dump, s, hole, end);
        if slot_at_most(dump, s, child, hole) {
            return;
        }
        swap(s, hole, child);
        hole = child;
    }
}

// Makes all slots a heap.
fn build(dump: Dump, s: &mut [u8])
    ensures { Sifted (record_at dump.entry.name_length dump.entry.bytes.now) 0 (length (slots 8 s.old)) (slots 8 s.old) (slots 8 s.new) }
{
    let n = s.len() / slots::WIDTH;
    for start in (0..n / 2).rev() {
        sift_down(dump, s, start, n);
    }
}

// Sorts the offsets in the slots by the records at them.
pub fn sort(dump: Dump, s: &mut [u8])
    ensures { Sorted (record_at dump.entry.name_length dump.entry.bytes.now) (slots 8 s.old) (slots 8 s.new) }
{
    build(dump, s);
    let n = s.len() / slots::WIDTH;
    for end in (1..n).rev() {
        swap(s, 0, end);
        sift_down(dump, s, 0, end);
    }
}
