// Numbers of the format (uleb128): reading one at the front of a part of a slice, and how long its shortest form is.
#![tactic(auto)]

ghost use Rattle.std.specs.Prelude.{◌≡◌, length};
ghost use Rattle.uleb128.specs.Number.{reading, reading_said};
ghost use Rattle.uleb128.specs.Encoding.{encoding};

// A number that stands at the front of a part: its value, and how many bytes it takes.
#[derive(Clone, Copy)]
pub struct Number {
    pub value: u64,
    pub used: usize,
}

// Why none stands there.
#[derive(Clone, Copy)]
pub enum NumberFault {
    // The part ends before the number does.
    CutOff,
    // Nine bytes from 80 hex up.
    TooWide,
    // More than one byte, and the last is 00.
    NotShortest,
}

// The number at the front of the part, which may end anywhere.
#[tactic(auto, unfolding(crate::specs::Number::reading_said), using(crate::proofs::PassedLaws::passed_rules))]
pub fn read_number(part: &[u8]) -> Result<Number, NumberFault>
    ensures { reading_said result ≡ reading part.now }
{
    let mut value: u64 = 0;
    let mut scale: u64 = 1;
    for (n, &b) in part.iter().enumerate() {
        if b < 128 {
            if b == 0 && 0 < n {
                return Err(NumberFault::NotShortest);
            }
            return Ok(Number {
                value: value + b as u64 * scale,
                used: n + 1,
            });
        }
        if n == 8 {
            return Err(NumberFault::TooWide);
        }
        value += (b as u64 - 128) * scale;
        scale *= 128;
    }
    Err(NumberFault::CutOff)
}

// How many bytes the shortest form of a number takes: one for every seven bits, and one for 0.
#[tactic(auto, using(crate::proofs::EncodingLaws::encoding_sized))]
pub fn number_length(value: u64) -> usize
    ensures { result ≡ length (encoding value) }
{
    value.max(1).ilog2() as usize / 7 + 1
}
