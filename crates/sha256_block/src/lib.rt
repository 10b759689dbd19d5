// The blocks of SHA-256 (FIPS 180-4): each block of 64 bytes is taken into the hash value.
//
// Initial hash value, padding and digest are in crate sha256, which takes a byte string in pieces.
#![tactic(auto)]

ghost use Rattle.std.specs.Prelude.{◌≡◌};
ghost use Rattle.sha256_block.specs.Compression as sha;

mod block;
mod word;

// The eight words of a hash value, and the eight working variables.
#[derive(Clone, Copy)]
pub struct Words {
    pub a: u32,
    pub b: u32,
    pub c: u32,
    pub d: u32,
    pub e: u32,
    pub f: u32,
    pub g: u32,
    pub h: u32,
}

// The hash value after the whole blocks of `s`.
pub fn over(hash: Words, s: &[u8]) -> Words
    ensures { result ≡ sha.over hash s.now }
{
    let mut v = hash;
    for block in s.chunks_exact(64) {
        v = block::compress(v, block);
    }
    v
}
