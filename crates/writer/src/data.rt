// The data blocks.
ghost use Rattle.std.specs.Prelude.{◌≤◌, List, map, length};
ghost use Rattle.lists.specs.Groups.{groups};
ghost use Rattle.items.proofs.ItemsLaws.{Row};
ghost use Rattle.payload.specs.Payload.{Text, text_at};
ghost use Rattle.layout.proofs.InputLaws.{Taken};
ghost use Rattle.writer.specs.Steps.{ValidInput, DataPut};

use header::Header;
use payload::text_at;

// Where the next `most` records end, or the end of the input.
fn group_end(records: &[u8], from: usize, most: u64) -> usize
    ensures { (xs : List Text) → from ≤ length records.now → Row (text_at 0 records.now) (length records.now) from xs
        → Taken 0 records.now from xs result most }
{
    let mut at = from;
    for _ in 0..most {
        let Ok(text) = text_at(records, at) else {
            return at;
        };
        at = text.end();
    }
    at
}

// Puts the data blocks from `from` on; answers where they end, or nothing where they don't fit.
pub fn put_data(output: &mut [u8], records: &[u8], per_block: u64, from: usize) -> Option<usize>
    requires { ValidInput records.now per_block }
    ensures { (xs : List Text) → Row (text_at 0 records.now) (length records.now) 0 xs
        → DataPut output.old from (groups per_block (map (λ x. x.bytes) xs)) result output.new }
{
    let mut at: usize = 0;
    let mut next = from;
    while at < records.len() {
        let end = group_end(records, at, per_block);
        next += encoder::put_block(output, next, 0, &records[at..end])?;
        if Header::MAX_FILE < next {
            return None;
        }
        at = end;
    }
    Some(next)
}
