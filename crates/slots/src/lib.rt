// Slots of 8 bytes in a lent byte slice, each with a number. Every function is total: behind the last slot 0 is read, and nothing stored.
#![tactic(auto)]

ghost use Rattle.std.specs.Prelude.{◌≡◌, get_or, set};
ghost use Rattle.slots.specs.Slots.{slots};

// How many bytes a slot takes.
pub const WIDTH: usize = 8;

// The number of slot k.
pub fn load(s: &[u8], k: usize) -> u64
    ensures { result ≡ get_or (slots 8 s.now) k 0 }
{
    if k < s.len() / WIDTH {
        endian::le64_at(s, WIDTH * k)
    } else {
        0
    }
}

// Stores a number into slot k.
pub fn store(s: &mut [u8], k: usize, value: u64)
    ensures { slots 8 s.new ≡ set (slots 8 s.old) k value }
{
    if s.len() / WIDTH <= k {
        return;
    }
    output_bytes::put(s, WIDTH * k, &endian::le64_bytes(value));
}
