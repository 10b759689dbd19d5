// The register after a long piece, in eight lanes: the piece is cut into eight equal parts, each goes into a register of its own, and the
// eight registers are joined. A step of one lane doesn't wait for the steps of the others.
#![tactic(auto)]

ghost use Rattle.std.specs.Prelude.{◌≡◌, true, ℕ, ◌+◌, ◌*◌, ◌^◌, ◌≤◌, ◌<◌, length, get_or};
ghost use Rattle.std.specs.Int.Bits.{bit_xor};
ghost use Rattle.part.specs.Part.{part};
ghost use Rattle.endian.specs.FixedWidth.{little_endian};
ghost use Rattle.crc64_register.specs.Crc64.{bit_steps};
ghost use Rattle.crc64_register.specs.Crc64 as crc;
ghost use Rattle.crc64_lanes.specs.Lanes.{Eight, lane_start, lane, joined};
ghost use Rattle.crc64_lanes.specs.Table.{is_table};

mod product;
mod table;

use crate::product::{product, shifted};
use crate::table::{absorb_by_table, table, table_step};
use std::array;

// A lane has at most so many words of eight bytes: one less than 2^25. In a file of 2^30 bytes it has 2^24.
const MOST_WORDS: usize = 33554431;

// How many words each of the eight lanes has in a piece of so many bytes.
fn words_of(length: usize) -> usize
    ensures { (64 * result ≤ length) × (result < 2 ^ 25) }
{
    (length / 64).min(MOST_WORDS)
}

// The eight bytes from `from` on are put into a register as a little-endian word.
fn put_word(register: u64, bytes: &[u8], from: usize) -> u64
    requires { from + 8 ≤ length bytes.now }
    ensures { result ≡ bit_xor register (little_endian (part bytes.now from 8)) }
{
    register ^ endian::le64(&bytes[from..from + 8])
}

// Eight bytes of each lane, from `at` on, are put into its register.
#[tactic(auto, unfolding(crate::specs::Lanes::Eight))]
fn put_words(registers: [u64; 8], bytes: &[u8], n: usize, at: usize) -> [u64; 8]
    requires { (at + 8 ≤ n) × (8 * n ≤ length bytes.now) }
    ensures { Eight (λ (j : ℕ). bit_xor (get_or registers j 0) (little_endian (part bytes.now (n * j + at) 8))) result }
{
    array::from_fn(|j| put_word(registers[j], bytes, n * j + at))
}

// Eight bits leave each register.
#[tactic(auto, unfolding(crate::specs::Lanes::Eight))]
fn byte_steps(table: &[u64; 256], registers: [u64; 8]) -> [u64; 8]
    requires { is_table table.now ≡ true }
    ensures { Eight (λ (j : ℕ). bit_steps 8 (get_or registers j 0)) result }
{
    array::from_fn(|j| table_step(table, registers[j]))
}

// Sixty-four bits leave each register.
fn word_steps(table: &[u64; 256], registers: [u64; 8]) -> [u64; 8]
    requires { is_table table.now ≡ true }
    ensures { Eight (λ (j : ℕ). bit_steps 64 (get_or registers j 0)) result }
{
    let mut r = registers;
    for _ in 0..8u8 {
        let next = byte_steps(table, r);
        r = next;
    }
    r
}

// The register of each lane, with `count` words to a lane.
fn registers_of(table: &[u64; 256], register: u64, bytes: &[u8], count: usize) -> [u64; 8]
    requires { (is_table table.now ≡ true) × (64 * count ≤ length bytes.now) }
    ensures { Eight (λ (j : ℕ). crc.register (lane_start register j) (lane (8 * count) bytes.now j)) result }
{
    let n = 8 * count;
    let mut r = [register, 0, 0, 0, 0, 0, 0, 0];
    for i in 0..count {
        let next = word_steps(table, put_words(r, bytes, n, 8 * i));
        r = next;
    }
    r
}

// The eight registers as one: a register goes through the zero bits of a lane by a product.
fn join(c: u64, registers: [u64; 8]) -> u64
    ensures { result ≡ joined c registers 7 }
{
    let mut r = registers[0];
    for next in &registers[1..] {
        r = product(c, r) ^ *next;
    }
    r
}

// The register after a piece more. What is left behind the lanes goes byte by byte.
pub fn absorb_by_lanes(register: u64, bytes: &[u8]) -> u64
    ensures { result ≡ crc.register register bytes.now }
{
    let count = words_of(bytes.len());
    let table = table();
    let registers = registers_of(table, register, bytes, count);
    let r = join(shifted(count), registers);
    absorb_by_table(table, r, &bytes[64 * count..])
}
