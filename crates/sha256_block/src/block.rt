// One block of 64 bytes, taken into a hash value (FIPS 180-4, 6.2.2).
ghost use Rattle.std.specs.Prelude.{◌≡◌, ◌<◌, ◌≤◌, length, take, drop};
ghost use Rattle.sha256_block.specs.Compression as sha;

use crate::Words;
use crate::word::{K, big_sigma0, big_sigma1, ch, maj, small_sigma0, small_sigma1};

// The block's sixteen words, at the front of the schedule.
fn first_words(block: &[u8]) -> [u32; 64]
    ensures { take 16 result ≡ sha.words_of 16 block.now }
{
    let mut w = [0u32; 64];
    for t in 0..16 {
        w[t] = endian::be32_at(block, 4 * t);
    }
    w
}

// The word that comes after the first `t`.
fn next_word(w: &[u32; 64], t: usize) -> u32
    requires { (16 ≤ t) × (t < 64) }
    ensures { t ≤ length w.now → result ≡ sha.next_word (take t w.now) }
{
    small_sigma1(w[t - 2])
        .wrapping_add(w[t - 7])
        .wrapping_add(small_sigma0(w[t - 15]))
        .wrapping_add(w[t - 16])
}

fn round(v: Words, k: u32, w: u32) -> Words
    ensures { result ≡ sha.round v k w }
{
    let t1 = v
        .h
        .wrapping_add(big_sigma1(v.e))
        .wrapping_add(ch(v.e, v.f, v.g))
        .wrapping_add(k)
        .wrapping_add(w);
    let t2 = big_sigma0(v.a).wrapping_add(maj(v.a, v.b, v.c));
    Words {
        a: t1.wrapping_add(t2),
        b: v.a,
        c: v.b,
        d: v.c,
        e: v.d.wrapping_add(t1),
        f: v.e,
        g: v.f,
        h: v.g,
    }
}

// The last sixteen rounds: all words of the schedule are there.
fn last_rounds(k: &[u32; 64], w: &[u32; 64], hash: Words) -> Words
    requires { (length k.now ≡ 64) × (length w.now ≡ 64) }
    ensures { result ≡ sha.rounds (drop 48 k.now) (drop 48 w.now) hash }
{
    let mut v = hash;
    for (k, w) in k[48..].iter().zip(&w[48..]) {
        v = round(v, *k, *w);
    }
    v
}

// A round, and the word that is due sixteen rounds later: neither waits for the other. Four of both are written out, so
// that the compiler renames the working variables instead of moving them.
fn rounds(block: &[u8], hash: Words) -> Words
    ensures { result ≡ sha.rounds sha.K (sha.schedule block.now) hash }
{
    let k = &K;
    let mut w = first_words(block);
    let mut v = hash;
    for turn in 0..12 {
        let t = 4 * turn;
        let v1 = round(v, k[t], w[t]);
        w[t + 16] = next_word(&w, t + 16);
        let v2 = round(v1, k[t + 1], w[t + 1]);
        w[t + 17] = next_word(&w, t + 17);
        let v3 = round(v2, k[t + 2], w[t + 2]);
        w[t + 18] = next_word(&w, t + 18);
        v = round(v3, k[t + 3], w[t + 3]);
        w[t + 19] = next_word(&w, t + 19);
    }
    last_rounds(k, &w, v)
}

#[tactic(auto, unfolding(crate::specs::Compression::sums, crate::specs::Compression::add))]
fn sums(x: Words, y: Words) -> Words
    ensures { result ≡ sha.sums x y }
{
    Words {
        a: x.a.wrapping_add(y.a),
        b: x.b.wrapping_add(y.b),
        c: x.c.wrapping_add(y.c),
        d: x.d.wrapping_add(y.d),
        e: x.e.wrapping_add(y.e),
        f: x.f.wrapping_add(y.f),
        g: x.g.wrapping_add(y.g),
        h: x.h.wrapping_add(y.h),
    }
}

// The hash value after one more block.
#[tactic(auto, unfolding(crate::specs::Compression::compress))]
pub fn compress(hash: Words, block: &[u8]) -> Words
    ensures { result ≡ sha.compress hash block.now }
{
    sums(rounds(block, hash), hash)
}
