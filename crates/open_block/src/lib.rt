// The open data block of a file that is being written: it stands framed, and one record more goes in.
#![tactic(auto)]

ghost use Rattle.std.specs.Prelude.{ℕ, ◌+◌, ◌≤◌, ◌≡◌, List, ◌∷◌, ◌++◌, length};
ghost use Rattle.uleb128.specs.Encoding.{encoding};
ghost use Rattle.crc64.specs.Crc64.{register_start};
ghost use Rattle.crc64.specs.Crc64 as crc;
ghost use Rattle.output_bytes.specs.OutputBytes.{stored};
ghost use Rattle.part.specs.Part as parts;
ghost use Rattle.layout.specs.Blocks.{text_bytes, block_bytes, block_size};

use part::Part;
use uleb128::number_length;

// Puts these bytes as a record behind the payload of a data block at `start`, and frames the block anew: its number, and its CRC, for which
// `register` holds the level byte and the payload. Where the number takes more bytes than before, the payload moves. Answers the register with
// the record.
//
// Of a block that isn't begun the level byte must stand where a block without records would have it. That the block fits is for the caller to
// test.
pub fn put_record(
    output: &mut [u8],
    start: usize,
    payload: usize,
    register: u64,
    bytes: &[u8],
) -> u64
    requires { start + block_size (payload + length (text_bytes bytes.now)) ≤ length output.old }
    ensures value { result ≡ crc.register register (text_bytes bytes.now) }
    ensures by_index { (known : List ℕ) → length known ≡ payload
        → parts.part output.old (start + length (encoding (payload + 1))) (payload + 1) ≡ 0 ∷ known
        → register ≡ crc.register register_start (0 ∷ known)
        → output.new ≡ stored output.old start (block_bytes 0 (known ++ text_bytes bytes.now)) }
{
    let text = number_length(bytes.len() as u64) + bytes.len();
    let longer = payload + text;
    let body = start + number_length(longer as u64 + 1);
    let source = Part {
        offset: start + number_length(payload as u64 + 1),
        length: payload + 1,
    };
    output_bytes::copy(output, source, body);
    encoder::put_number(output, start, longer as u64 + 1);
    let at = body + 1 + payload;
    let number = encoder::put_number(output, at, bytes.len() as u64);
    output_bytes::put(output, at + number, bytes);
    let end = at + text;
    let more = crc64::absorb(register, &output[at..end]);
    let crc = endian::le64_bytes(crc64::finish(more));
    output_bytes::put(output, end, &crc);
    more
}
