// The index over a run of blocks that stand side by side in an output: one level after the other, up to the first that has a single block.
#![tactic(auto)]

ghost use Rattle.std.specs.Prelude.{ℕ, ◌^◌, ◌≤◌, ◌≡◌, leb, length};
ghost use Rattle.outcome.specs.Fault.{said_at};
ghost use Rattle.layout.specs.File.{file_fits};
ghost use Rattle.index_encoder.specs.Raise.{raise_of, raised_of, with_index, IndexPut, index_for, LevelsPut};

mod child;
mod entries;
mod level;

use crate::level::put_level;
use header::Header;
use outcome::Fault;

// Offset and full size of the root, and where the index ends.
#[derive(Clone, Copy)]
pub struct Raised {
    pub root: usize,
    pub rootsize: usize,
    pub end: usize,
}

// Puts the index over the blocks that stand in the output from `from` to `to`, from `to` on. The output has zeros from `to` on after a refusal.
pub fn put_index(output: &mut [u8], from: usize, to: usize, per_index: u64) -> Result<Raised, Fault>
    ensures result_value { said_at 0 result ≡ raised_of per_index output.old from to }
    ensures output_after { output.new ≡ with_index output.old to (raise_of per_index output.old from to) }
{
    let raised = raise(output, from, to, per_index);
    if raised.is_err() && to < output.len() {
        output_bytes::clear(&mut output[to..]);
    }
    raised
}

// The same, but what was put before a refusal is still there.
fn raise(output: &mut [u8], from: usize, to: usize, per_index: u64) -> Result<Raised, Fault>
    ensures result_value { said_at 0 result ≡ raised_of per_index output.old from to }
    ensures index_put { IndexPut output.old output.new to (raise_of per_index output.old from to) }
{
    if per_index < 2 {
        return Err(Fault::Counts);
    }
    let room = file_room(output.len());
    if room < to {
        return Err(Fault::OutputRoom);
    }
    put_levels(&mut output[..room], from, to, per_index)
}

// How much of an output a file may fill.
pub fn file_room(room: usize) -> usize
    ensures { (result ≤ room) × (result ≤ 2 ^ 30) × ((end : ℕ) → file_fits room end ≡ leb end result) }
{
    room.min(Header::MAX_FILE)
}

// Puts level after level, up to the first that has a single block.
fn put_levels(output: &mut [u8], from: usize, to: usize, per_index: u64) -> Result<Raised, Fault>
    requires { (2 ≤ per_index) × (to ≤ length output.old) × (length output.old ≤ 2 ^ 30) }
    ensures { LevelsPut output.old output.new to (index_for per_index output.old from to) result }
{
    let mut level: u8 = 1;
    let mut a = from;
    let mut b = to;
    loop {
        let put = put_level(output, level, a, b, per_index).ok_or(Fault::OutputRoom)?;
        match put.blocks {
            0 => return Ok(Raised {
                root: 0,
                rootsize: 0,
                end: put.end,
            }),
            1 => return Ok(Raised {
                root: b,
                rootsize: put.end - b,
                end: put.end,
            }),
            _ => {
                a = b;
                b = put.end;
                level += 1;
            },
        }
    }
}
