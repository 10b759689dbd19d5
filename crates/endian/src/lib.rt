// Numbers of a fixed width, read from a byte slice and written as an array of bytes.
//
// A function that reads takes the bytes from a position on, or from the front. Where fewer are there than the width, it reads those that
// are: it is total, and a caller that wants the whole width tests the length itself.
#![tactic(auto)]

ghost use Rattle.std.specs.Prelude.{◌≡◌, ◌≤◌, length, take, drop};
ghost use Rattle.endian.specs.FixedWidth.{little_endian, little_bytes, big_endian, big_bytes};

// The number of at most 8 bytes, the lowest first.
fn little(part: &[u8]) -> u64
    requires { length part.now ≤ 8 }
    ensures { result ≡ little_endian part.now }
{
    let mut value: u64 = 0;
    let mut i = part.len();
    while 0 < i {
        i -= 1;
        value = value * 256 + u64::from(part[i]);
    }
    value
}

// The number of at most 8 bytes, the highest first.
fn big(part: &[u8]) -> u64
    requires { length part.now ≤ 8 }
    ensures { result ≡ big_endian part.now }
{
    let mut value: u64 = 0;
    let mut i = 0;
    while i < part.len() {
        value = value * 256 + u64::from(part[i]);
        i += 1;
    }
    value
}

// The first 8 bytes as a little-endian number.
pub fn le64(bytes: &[u8]) -> u64
    ensures { result ≡ little_endian (take 8 bytes.now) }
{
    if let Some(eight) = bytes.first_chunk() {
        return u64::from_le_bytes(*eight);
    }
    little(bytes)
}

// The 8 bytes from `at` on as a little-endian number.
pub fn le64_at(s: &[u8], at: usize) -> u64
    ensures { result ≡ little_endian (take 8 (drop at s.now)) }
{
    le64(&s[at.min(s.len())..])
}

// The first 4 bytes as a big-endian number.
fn be32(bytes: &[u8]) -> u32
    ensures { result ≡ big_endian (take 4 bytes.now) }
{
    if let Some(four) = bytes.first_chunk() {
        return u32::from_be_bytes(*four);
    }
    big(bytes) as u32
}

// The 4 bytes from `at` on as a big-endian number.
pub fn be32_at(s: &[u8], at: usize) -> u32
    ensures { result ≡ big_endian (take 4 (drop at s.now)) }
{
    be32(&s[at.min(s.len())..])
}

// The 4 bytes of a number, the highest first.
pub fn be32_bytes(word: u32) -> [u8; 4]
    ensures { result ≡ big_bytes 4 word }
{
    word.to_be_bytes()
}

// The 8 bytes of a number, the highest first.
pub fn be64_bytes(x: u64) -> [u8; 8]
    ensures { result ≡ big_bytes 8 x }
{
    x.to_be_bytes()
}

// The 8 bytes of a number, the lowest first.
pub fn le64_bytes(x: u64) -> [u8; 8]
    ensures { result ≡ little_bytes 8 x }
{
    x.to_le_bytes()
}
