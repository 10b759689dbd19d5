// One level of index blocks over a run of blocks.
ghost use Rattle.std.specs.Prelude.{◌^◌, ◌≤◌, ◌≡◌, length, take};
ghost use mathlib.Core.List.{flat_map};
ghost use Rattle.output_bytes.specs.OutputBytes.{stored, stored_size};
ghost use Rattle.layout.specs.Index.{entry_bytes, index_bytes};
ghost use Rattle.index_encoder.specs.Children.{Within};
ghost use Rattle.index_encoder.specs.Level.{entries_for, block_for, level_for, LevelPut};

use crate::child::Position;
use crate::entries::{Group, measure, put_entries};

// Where a level ends, and how many blocks it has.
#[derive(Clone, Copy)]
pub struct Level {
    pub end: usize,
    pub blocks: usize,
}

// Puts the index block of a group of blocks, which begins at `from`, of the run that ends at `to`; answers its full size, or nothing where it
// doesn't fit.
fn put_index_block(
    output: &mut [u8],
    level: u8,
    to: usize,
    from: Position,
    group: Group,
    place: usize,
) -> Option<usize>
    requires { (to ≤ place) × Within (take to output.old) from.before
        × (group.length ≡ length (flat_map entry_bytes (entries_for output.old to from group.count))) }
    ensures value { result ≡ stored_size output.old place (index_bytes (block_for output.old level to from group.count place)) }
    ensures output_after { output.new
        ≡ stored output.old place (index_bytes (block_for output.old level to from group.count place)) }
{
    let size = encoder::block_size(output.len(), place, group.length)?;
    let body = place + encoder::put_number(output, place, group.length as u64 + 1);
    output_bytes::put(output, body, &[level]);
    let end = put_entries(output, to, from, group.count, body + 1);
    let crc = endian::le64_bytes(crc64::checksum(&output[body..end]));
    output_bytes::put(output, end, &crc);
    Some(size)
}

// Puts the index blocks of a level over the blocks from `from` to `to`, from `to` on; nothing is answered where they don't fit.
pub fn put_level(
    output: &mut [u8],
    level: u8,
    from: usize,
    to: usize,
    per_index: u64,
) -> Option<Level>
    requires { (1 ≤ per_index) × (to ≤ length output.old) × (length output.old ≤ 2 ^ 30) }
    ensures { LevelPut output.old output.new to (level_for per_index level output.old from to) result }
{
    let mut at = Position::start(from);
    let mut end = to;
    let mut blocks: usize = 0;
    loop {
        let group = measure(&output[..to], at, per_index);
        if group.count == 0 {
            return Some(Level { end, blocks });
        }
        end += put_index_block(output, level, to, at, group, end)?;
        blocks += 1;
        at = group.next;
    }
}
