// The lists and outputs that the calls are lent.
ghost use Rattle.std.specs.Prelude.{min, length, take, ◌≡◌, ◌≤◌};

// What stands in each place of a list, and in each byte of an output, before a call, so that a place that isn't cleared shows.
pub const RUBBISH: u64 = 0x5a5a5a5a5a5a5a5a;

pub const RUBBISH_BYTE: u8 = 0x5a;

// How many places are lent where a case asks for `places`. No case of the corpus asks for more than there are.
pub fn room<T>(places: u64, lent: &[T]) -> usize
    ensures value { result ≡ min places (length lent.now) }
    ensures in_bounds { result ≤ length lent.now }
    ensures prefix_len { result ≡ length (take result lent.now) }
{
    if places < lent.len() as u64 {
        places as usize
    } else {
        lent.len()
    }
}
