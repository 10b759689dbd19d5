// CRC-64 of a byte string that comes in pieces: begin, absorb any number of slices, finish. `checksum` is all three in one.
//
// The register is a number, and every public function is total, on any register; the law `register-append` says that
// pieces absorbed one after the other give what they give joined.
//
// The bytes of a long piece go in by a table of 256 numbers, in eight lanes side by side. Lanes have to be joined, which would take longer
// than a short piece itself; so short pieces take eight one-bit steps for each byte.
#![tactic(auto)]

ghost use Rattle.std.specs.Prelude.{◌≡◌};
ghost use Rattle.crc64.specs.Crc64.{register_start, crc_of, crc64};
ghost use Rattle.crc64.specs.Crc64 as crc;

use crc64_lanes::absorb_by_lanes;
use crc64_register::absorb_by_bits;

const ALL_ONES: u64 = u64::MAX;

// Pieces of so many bytes and more go in lanes.
const LONG: usize = 512;

// The register before the first byte.
#[tactic(auto, unfolding(crate::specs::Crc64::register_start, crate::specs::Crc64::all_ones))]
pub fn begin() -> u64
    ensures { result ≡ register_start }
{
    ALL_ONES
}

// The register after a piece more.
pub fn absorb(register: u64, bytes: &[u8]) -> u64
    ensures { result ≡ crc.register register bytes.now }
{
    if bytes.len() < LONG {
        return absorb_by_bits(register, bytes);
    }
    absorb_by_lanes(register, bytes)
}

// The CRC that a register gives.
#[tactic(auto, unfolding(crate::specs::Crc64::crc_of, crate::specs::Crc64::all_ones))]
pub fn finish(register: u64) -> u64
    ensures { result ≡ crc_of register }
{
    register ^ ALL_ONES
}

// The CRC of the bytes.
#[tactic(auto, unfolding(crate::specs::Crc64::crc64))]
pub fn checksum(bytes: &[u8]) -> u64
    ensures { result ≡ crc64 bytes.now }
{
    finish(absorb(begin(), bytes))
}
