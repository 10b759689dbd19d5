// SHA-256 (FIPS 180-4) of a byte string that comes in pieces: begin, absorb any number of slices, finish.
//
// The state goes in and comes back by value: the hash value so far, the bytes that do not fill a block yet, and how many
// bytes there were. Whole blocks are taken straight from the caller's slice. Every function is total, on any state; the
// law `Holds⇒sha256` says that a state made by `begin` and `absorb` gives the hash of the pieces joined.
#![tactic(auto)]

ghost use Rattle.std.specs.Prelude.{◌≡◌, ◌+◌, ◌-◌, ◌≤◌, ◌++◌, length, take, replicate};
ghost use Rattle.sha256.specs.Sha256 as sha;
ghost use Rattle.sha256.specs.State.{begun, absorbed, finished};

use sha256_block::Words;

// `partial` holds the last `count % 64` bytes at its front.
#[derive(Clone, Copy)]
pub struct State {
    pub hash: Words,
    pub partial: [u8; 64],
    pub count: u64,
}

// The state before the first byte.
#[tactic(auto, unfolding(crate::specs::State::begun, crate::specs::Sha256::initial))]
pub fn begin() -> State
    ensures { result ≡ begun }
{
    let hash = Words {
        a: 0x6a09e667,
        b: 0xbb67ae85,
        c: 0x3c6ef372,
        d: 0xa54ff53a,
        e: 0x510e527f,
        f: 0x9b05688c,
        g: 0x1f83d9ab,
        h: 0x5be0cd19,
    };
    State {
        hash,
        partial: [0u8; 64],
        count: 0,
    }
}

// The first `fill` bytes of `kept`, then `piece`, then zeros.
fn filled(kept: [u8; 64], fill: usize, piece: &[u8]) -> [u8; 64]
    requires { fill + length piece.now ≤ 64 }
    ensures { result ≡ take fill kept ++ (piece.now ++ replicate (64 - (fill + length piece.now)) 0) }
{
    let mut out = kept;
    for i in 0..64 - fill {
        if i < piece.len() {
            out[fill + i] = piece[i];
        } else {
            out[fill + i] = 0;
        }
    }
    out
}

// The state after a piece more.
pub fn absorb(state: State, piece: &[u8]) -> State
    ensures { result ≡ absorbed state piece.now }
{
    let fill = (state.count % 64) as usize;
    let count = state.count.wrapping_add(piece.len() as u64);
    match piece.split_at_checked(64 - fill) {
        None => State {
            partial: filled(state.partial, fill, piece),
            count,
            ..state
        },
        Some((front, rest)) => {
            let block = filled(state.partial, fill, front);
            let kept = rest.chunks_exact(64).remainder();
            State {
                hash: sha256_block::over(sha256_block::over(state.hash, &block), rest),
                partial: filled([0u8; 64], 0, kept),
                count,
            }
        }
    }
}

// The words of a hash value, the highest byte first.
fn digest(hash: Words) -> [u8; 32]
    ensures { result ≡ sha.digest hash }
{
    let words = [
        hash.a, hash.b, hash.c, hash.d, hash.e, hash.f, hash.g, hash.h,
    ];
    let mut out = [0u8; 32];
    for (i, word) in words.iter().enumerate() {
        out[4 * i..4 * i + 4].copy_from_slice(&endian::be32_bytes(*word));
    }
    out
}

// The digest that a state gives. The padding is the byte 0x80, zeros, and the count of the bits.
pub fn finish(state: State) -> [u8; 32]
    ensures { result ≡ finished state }
{
    let zeros = ((119 - state.count % 64) % 64) as usize;
    let mut padding = [0u8; 72];
    padding[0] = 0x80;
    padding[1 + zeros..9 + zeros].copy_from_slice(&endian::be64_bytes(state.count.wrapping_mul(8)));
    digest(absorb(state, &padding[..9 + zeros]).hash)
}
