// The steps of a session, one after the other: what stands where is said in cli/reference/README.md.
ghost use Rattle.std.specs.Prelude.{IfSome, ◌<◌, length};

use endian::le64_at;

#[derive(Clone, Copy)]
pub struct Step<'a> {
    pub kind: u8,
    // Metadata or record.
    pub bytes: &'a [u8],
    pub first: u64,
    pub second: u64,
}

// How many bytes a step has before its metadata or its record.
const FIXED: usize = 19;

// The step in front, and what follows it, unless the bytes end within it.
pub fn next_step(stored: &[u8]) -> Option<(Step<'_>, &[u8])>
    ensures { IfSome result (λ r. length r.1.now < length stored.now) }
{
    let (fixed, rest) = stored.split_at_checked(FIXED)?;
    let size = le64_at(fixed, 1) % 65536;
    let (bytes, rest) = rest.split_at_checked(size as usize)?;
    let step = Step {
        kind: fixed[0],
        bytes,
        first: le64_at(fixed, 3),
        second: le64_at(fixed, 11),
    };
    Some((step, rest))
}
