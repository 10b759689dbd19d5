// The header of a file, put at the front of an output in two steps: what is known before the blocks, and what is known after them.
#![tactic(auto)]

ghost use Rattle.std.specs.Prelude.{ℕ, ◌≡◌, List, ◌++◌, length};
ghost use Rattle.output_bytes.specs.OutputBytes.{bytes_fit, stored};
ghost use Rattle.layout.specs.File.{header_data, header_bytes, unfinished_header};

use header::Header;

// How many bytes the fields from ROOT_AT to CODEC_AT take, and the CRC.
const FIELDS: usize = 56;

const CRC: usize = 8;

// Puts the header of an unfinished file, without extra bytes, where it fits; answers whether it did.
pub fn begin_header(output: &mut [u8], metadata: &[u8]) -> bool
    ensures { (result ≡ bytes_fit output.old 0 (unfinished_header metadata.now))
        × (output.new ≡ stored output.old 0 (unfinished_header metadata.now)) }
{
    let front = Header::LEAST_BLOCKS;
    if output.len() < front || output.len() - front < metadata.len() {
        return false;
    }
    let length = metadata.len() as u64;
    let extent = Header::LEAST_EXTENT + length;
    output_bytes::put(output, 0, b"\xabZStoBe\x01");
    output_bytes::put(output, Header::EXTENT_AT, &endian::le64_bytes(extent));
    output_bytes::put(output, Header::ROOT_AT, &[0; FIELDS]);
    output_bytes::put(output, Header::CODEC_AT, b"none\0\0\0\0\0\0\0\0\0\0\0\0");
    output_bytes::put(
        output,
        Header::METADATA_LENGTH_AT,
        &endian::le64_bytes(length),
    );
    output_bytes::put(output, Header::METADATA_AT, metadata);
    output_bytes::put(output, Header::METADATA_AT + metadata.len(), &[0; CRC]);
    true
}

// Makes the header of an unfinished file, with `metadata` bytes of metadata, that of a finished one; nothing where it isn't within the output.
pub fn complete_header(
    output: &mut [u8],
    metadata: usize,
    root: u64,
    rootsize: u64,
    total: u64,
    hash: [u8; 32],
)
    ensures { (known rest : List ℕ) → length known ≡ metadata → output.old ≡ unfinished_header known ++ rest
        → output.new ≡ header_bytes (header_data known root rootsize total hash) ++ rest }
{
    let front = Header::LEAST_BLOCKS;
    if output.len() < front || output.len() - front < metadata {
        return;
    }
    output_bytes::put(output, Header::ROOT_AT, &endian::le64_bytes(root));
    output_bytes::put(output, Header::ROOT_SIZE_AT, &endian::le64_bytes(rootsize));
    output_bytes::put(output, Header::TOTAL_AT, &endian::le64_bytes(total));
    output_bytes::put(output, Header::HASH_AT, &hash);
    let end = Header::METADATA_AT + metadata;
    let crc = crc64::checksum(&output[Header::DATA_AT..end]);
    output_bytes::put(output, end, &endian::le64_bytes(crc));
    output_bytes::put(output, 0, b"\xabZSfiLe\x01");
}
