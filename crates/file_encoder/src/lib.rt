// Beginning a file in an output, and finishing it over the data blocks that stand there.
#![tactic(auto)]

ghost use Rattle.std.specs.Prelude.{ℕ, ◌≤◌, ◌≡◌, length};
ghost use mathlib.Core.List.{List, flat_map};
ghost use Rattle.sha256.specs.Sha256 as sha;
ghost use Rattle.layout.specs.Blocks.{records_bytes};
ghost use Rattle.layout.specs.File.{file_of, counts_fit};
ghost use Rattle.file_encoder.specs.Begun.{blocks_begin, with_header, Begun, FilePut};

use header::Header;
use index_encoder::{file_room, put_index};

// Whether the counts are in range: records in a data block, entries in an index block.
pub fn counts_fit(per_block: u64, per_index: u64) -> bool
    ensures { result ≡ counts_fit per_block per_index }
{
    (1..=65535).contains(&per_block) && (2..=65535).contains(&per_index)
}

// Puts the header as far as it is known; answers where the blocks begin, or nothing where it doesn't fit.
pub fn begin_file(output: &mut [u8], metadata: &[u8]) -> Option<usize>
    ensures value { result ≡ blocks_begin (length output.old) metadata.now }
    ensures output_after { output.new ≡ with_header output.old metadata.now }
{
    let blocks = Header::LEAST_BLOCKS + metadata.len();
    if file_room(output.len()) < blocks {
        return None;
    }
    header_encoder::begin_header(output, metadata);
    Some(blocks)
}

// Puts the index over the data blocks that stand from `from` to `to`, and completes the header; answers how long the file is, or nothing
// where it doesn't fit. Then the output is as it was.
pub fn finish_file(
    output: &mut [u8],
    from: usize,
    to: usize,
    per_index: u64,
    hash: [u8; 32],
) -> Option<usize>
    ensures { (metadata : List ℕ) (blocks : List (List (List ℕ))) → 2 ≤ per_index → Begun metadata blocks output.old from to
        → hash ≡ sha.sha256 (flat_map records_bytes blocks)
        → FilePut (length output.old) (file_of metadata blocks per_index) result output.new
        × (result ≡ None → output.new ≡ output.old) }
{
    let metadata = from.checked_sub(Header::LEAST_BLOCKS)?;
    let index = put_index(output, from, to, per_index).ok()?;
    header_encoder::complete_header(
        output,
        metadata,
        index.root as u64,
        index.rootsize as u64,
        index.end as u64,
        hash,
    );
    Some(index.end)
}
