// The register of CRC-64: what it is and how bytes go into it, by one-bit steps.
#![tactic(auto)]

ghost use Rattle.std.specs.Prelude.{◌≡◌};
ghost use Rattle.crc64_register.specs.Crc64.{byte_step};
ghost use Rattle.crc64_register.specs.Crc64 as crc;

// The polynomial 42f0e1eba9ea3693 hex with its 64 bits in reverse order.
pub const POLYNOMIAL: u64 = 0xc96c_5795_d787_0f42;

// The register after one byte more. The choice is an `if` and no product: in this form the compiler replaces the eight
// turns by one lookup in a table of 256 numbers, as the machine code shows.
fn byte_step(register: u64, b: u8) -> u64
    ensures { result ≡ byte_step register b }
{
    let mut r = register ^ (b as u64);
    for _ in 0..8u8 {
        r = if r % 2 == 1 {
            (r / 2) ^ POLYNOMIAL
        } else {
            r / 2
        };
    }
    r
}

// The register after a piece more, eight one-bit steps for each byte.
pub fn absorb_by_bits(register: u64, bytes: &[u8]) -> u64
    ensures { result ≡ crc.register register bytes.now }
{
    bytes.iter().fold(register, |r, b| byte_step(r, *b))
}
