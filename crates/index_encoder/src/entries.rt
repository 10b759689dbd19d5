// The entries of one index block.
ghost use Rattle.std.specs.Prelude.{ℕ, ◌+◌, ◌^◌, ◌≤◌, ◌≡◌, length, take};
ghost use mathlib.Core.List.{List, flat_map};
ghost use Rattle.output_bytes.specs.OutputBytes.{stored};
ghost use Rattle.layout.specs.Index.{entry_bytes};
ghost use Rattle.index_encoder.specs.Children.{entry_in, Within};
ghost use Rattle.index_encoder.specs.Level.{Measured, entries_for};

use crate::child::{Child, Position, child_at};

// A group of blocks that stand side by side: how many, where the run goes on, and how many bytes their entries take.
#[derive(Clone, Copy)]
pub struct Group {
    pub count: u64,
    pub next: Position,
    pub length: usize,
}

// The length of the entry for a block at an offset.
fn entry_length(offset: usize, child: Child) -> usize
    requires { (child.key.length ≤ 2 ^ 30) × (offset ≤ 2 ^ 30) × (child.size ≤ 2 ^ 30) }
    ensures { (s : List ℕ) → child.key.offset + child.key.length ≤ length s
        → result ≡ length (entry_bytes (entry_in s child.key offset child.size)) }
{
    uleb128::number_length(child.key.length as u64)
        + child.key.length
        + uleb128::number_length(offset as u64)
        + uleb128::number_length(child.size as u64)
}

// The blocks of `s` from a position on, at most `most` of them.
pub fn measure(s: &[u8], from: Position, most: u64) -> Group
    requires { (length s.now ≤ 2 ^ 30) × Within s.now from.before }
    ensures { Measured s.now from most result }
{
    let mut group = Group {
        count: 0,
        next: from,
        length: 0,
    };
    for _ in 0..most {
        let Ok(child) = child_at(s, group.next) else {
            return group;
        };
        group = Group {
            count: group.count + 1,
            next: group.next.after(child),
            length: group.length + entry_length(group.next.offset, child),
        };
    }
    group
}

// Puts the entry for a block at an offset, whose key stands before it; answers where it ends.
fn put_entry(output: &mut [u8], place: usize, offset: usize, child: Child) -> usize
    requires { (child.key.offset + child.key.length ≤ place)
        × (place + length (entry_bytes (entry_in output.old child.key offset child.size)) ≤ length output.old) }
    ensures value { result ≡ place + length (entry_bytes (entry_in output.old child.key offset child.size)) }
    ensures output_after { output.new ≡ stored output.old place (entry_bytes (entry_in output.old child.key offset child.size)) }
{
    let text = place + encoder::put_number(output, place, child.key.length as u64);
    output_bytes::copy(output, child.key, text);
    let after = text + child.key.length;
    let next = after + encoder::put_number(output, after, offset as u64);
    next + encoder::put_number(output, next, child.size as u64)
}

// Puts the entries for the first `count` blocks from `from` on of the run that ends at `to`; answers where they end.
pub fn put_entries(output: &mut [u8], to: usize, from: Position, count: u64, place: usize) -> usize
    requires { (to ≤ place) × Within (take to output.old) from.before
        × (place + length (flat_map entry_bytes (entries_for output.old to from count)) ≤ length output.old) }
    ensures value { result ≡ place + length (flat_map entry_bytes (entries_for output.old to from count)) }
    ensures output_after { output.new ≡ stored output.old place (flat_map entry_bytes (entries_for output.old to from count)) }
{
    let mut at = from;
    let mut end = place;
    for _ in 0..count {
        let Ok(child) = child_at(&output[..to], at) else {
            return end;
        };
        end = put_entry(output, end, at.offset, child);
        at = at.after(child);
    }
    end
}
