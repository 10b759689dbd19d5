// The stored cases, one after the other: what stands where is said in cli/reference/README.md.
ghost use Rattle.std.specs.Prelude.{IfSome, ◌<◌, length};

use endian::le64_at;
use query::Query;

#[derive(Clone, Copy)]
pub struct Case<'a> {
    pub name: &'a [u8],
    pub call: u8,
    pub query: Query<'a>,
    pub result_places: u64,
    pub other_places: u64,
    pub offset: u64,
    pub length: u64,
}

// How many bytes the numbers of a case take.
const NUMBERS: usize = 20;

// The string whose length stands in front, and what follows it, unless the bytes end within it.
pub fn string(stored: &[u8]) -> Option<(&[u8], &[u8])>
    ensures { IfSome result (λ r. length r.1.now < length stored.now) }
{
    let (size, rest) = stored.split_first()?;
    rest.split_at_checked(*size as usize)
}

// The case in front, and what follows it, unless the bytes end within it.
pub fn next_case(stored: &[u8]) -> Option<(Case<'_>, &[u8])>
    ensures { IfSome result (λ r. length r.1.now < length stored.now) }
{
    let (name, rest) = string(stored)?;
    let (call, rest) = rest.split_first()?;
    let (start, rest) = string(rest)?;
    let (stop_given, rest) = rest.split_first()?;
    let (stop, rest) = string(rest)?;
    let (prefix, rest) = string(rest)?;
    let (numbers, rest) = rest.split_at_checked(NUMBERS)?;
    let case = Case {
        name,
        call: *call,
        query: Query::new(start, *stop_given != 0, stop, prefix),
        result_places: le64_at(numbers, 0) % 65536,
        other_places: le64_at(numbers, 2) % 65536,
        offset: le64_at(numbers, 4),
        length: le64_at(numbers, 12),
    };
    Some((case, rest))
}
