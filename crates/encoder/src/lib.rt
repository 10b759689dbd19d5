// Numbers and framed blocks, put into a lent output.
//
// Every function is total: it stores what it encodes where that fits, and nothing otherwise, and answers how many bytes those are.
#![tactic(auto)]

ghost use Rattle.std.specs.Prelude.{◌+◌, ◌≡◌, ◌∷◌, leb};
ghost use Rattle.std.specs.Bool.{then_some};
ghost use Rattle.uleb128.specs.Encoding.{encoding};
ghost use Rattle.crc64.specs.Crc64.{crc64};
ghost use Rattle.output_bytes.specs.OutputBytes.{stored, stored_length, stored_size};
ghost use Rattle.layout.specs.Blocks.{block_bytes, block_size};

// A number in its shortest form; nothing, and 0, where it doesn't fit.
pub fn put_number(output: &mut [u8], at: usize, value: u64) -> usize
    ensures { (result ≡ stored_length output.old at (encoding value)) × (output.new ≡ stored output.old at (encoding value)) }
{
    let length = uleb128::number_length(value);
    if output.len() < at || output.len() - at < length {
        return 0;
    }
    let last = length - 1;
    let mut rest = value;
    for i in 0..last {
        output[at + i] = (rest % 128 + 128) as u8;
        rest /= 128;
    }
    output[at + last] = rest as u8;
    length
}

// The full size of a block with a payload of this length, where it fits from `at` on.
pub fn block_size(room: usize, at: usize, payload: usize) -> Option<usize>
    ensures { result ≡ then_some (leb (at + block_size payload) room) (block_size payload) }
{
    let number = uleb128::number_length((payload as u64).checked_add(1)?);
    let size = payload.checked_add(number + 9)?;
    let end = at.checked_add(size)?;
    (end <= room).then_some(size)
}

// The CRC of a block's level byte and payload.
fn block_crc(level: u8, payload: &[u8]) -> u64
    ensures { result ≡ crc64 (level ∷ payload.now) }
{
    crc64::finish(crc64::absorb(crc64::absorb(crc64::begin(), &[level]), payload))
}

// A block: the number, the level byte, the payload and the CRC; nothing where it doesn't fit.
pub fn put_block(output: &mut [u8], at: usize, level: u8, payload: &[u8]) -> Option<usize>
    ensures { (result ≡ stored_size output.old at (block_bytes level payload.now))
        × (output.new ≡ stored output.old at (block_bytes level payload.now)) }
{
    let size = block_size(output.len(), at, payload.len())?;
    let body = at + put_number(output, at, payload.len() as u64 + 1);
    output_bytes::put(output, body, &[level]);
    output_bytes::put(output, body + 1, payload);
    let end = body + 1 + payload.len();
    let crc = endian::le64_bytes(block_crc(level, payload));
    output_bytes::put(output, end, &crc);
    Some(size)
}
