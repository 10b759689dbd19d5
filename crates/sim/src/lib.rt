// Records of a SIM phonebook: the name in its field, and the order of the records that are made of two of them.
#![tactic(auto)]

ghost use Rattle.std.specs.Prelude.{◌≡◌, ◌+◌, ◌++◌, eqb, take, drop};
ghost use Rattle.lists.specs.Groups.{first_or};
ghost use Rattle.part.specs.Part.{part};
ghost use Rattle.outcome.specs.Fault.{said_at};
ghost use Rattle.byte_string.specs.Order.{at_most};
ghost use Rattle.sim.specs.Adn.{is_filled, pairs_length, plain_length, name_length, name_of, is_name, judged, record_at};

use outcome::Fault;
use std::cmp::Ordering;

// How many bytes follow the name field.
pub const REST: usize = 14;

// The most that their first, the length of the number, may be.
const MAX_NUMBER: u8 = 11;

// Whether every byte is FF.
pub fn is_filled(s: &[u8]) -> bool
    ensures { result ≡ is_filled s.now }
{
    for i in 0..s.len() {
        if s[i] != 255 {
            return false;
        }
    }
    true
}

// How many bytes the pairs take that stand before the first pair FF FF.
fn pairs_length(s: &[u8]) -> usize
    ensures { result ≡ pairs_length s.now }
{
    let (pairs, _) = s.as_chunks::<2>();
    2 * pairs
        .iter()
        .position(|pair| *pair == [255, 255])
        .unwrap_or(pairs.len())
}

// How many bytes below 80 hex stand at the front.
fn plain_length(s: &[u8]) -> usize
    ensures { result ≡ plain_length s.now }
{
    s.iter().position(|b| 128 <= *b).unwrap_or(s.len())
}

// The first n bytes, or all where there are fewer.
fn front(s: &[u8], n: usize) -> &[u8]
    ensures { result.now ≡ take n s.now }
{
    s.get(..n).unwrap_or(s)
}

// The bytes from n on, or none where there are no more.
fn behind(s: &[u8], n: usize) -> &[u8]
    ensures { result.now ≡ drop n s.now }
{
    s.get(n..).unwrap_or(&[])
}

// The first byte, or 0 where there is none.
#[tactic(auto, using(crate::proofs::AdnLaws::first_slice))]
fn first(s: &[u8]) -> u8
    ensures { result ≡ first_or 0 s.now }
{
    s.first().copied().unwrap_or(0)
}

// How many bytes the name in a field takes, coding bytes included; by its count a name may run past the field.
#[tactic(auto, unfolding(crate::specs::Adn::name_length, crate::specs::Adn::plain_length), using(crate::proofs::AdnLaws::pairs_few))]
fn name_length(field: &[u8]) -> usize
    ensures { result ≡ name_length field.now }
{
    match field.split_first() {
        Some((128, s)) => 1 + pairs_length(s),
        Some((129, s)) => 3 + first(s) as usize,
        Some((130, s)) => 4 + first(s) as usize,
        _ => plain_length(field),
    }
}

// Whether the name ends within its field, and everything after it is FF.
#[tactic(auto, unfolding(crate::specs::Adn::is_name))]
fn is_name(field: &[u8]) -> bool
    ensures { result ≡ is_name field.now }
{
    let length = name_length(field);
    length <= field.len() && is_filled(&field[length..])
}

// What follows the name field of x bytes.
pub fn rest(adn: &[u8], x: u8) -> &[u8]
    ensures { result.now ≡ drop x adn.now }
{
    behind(adn, x as usize)
}

// A record: its name field, and what follows it.
#[derive(Clone, Copy)]
pub struct Adn<'a> {
    pub field: &'a [u8],
    pub rest: &'a [u8],
}

impl<'a> Adn<'a> {
    // Whether it is free: every byte is FF.
    #[tactic(auto, using(crate::proofs::AdnLaws::filled_append))]
    pub fn is_free(self) -> bool
        ensures { result ≡ is_filled (self.entry.field.now ++ self.entry.rest.now) }
    {
        is_filled(self.field) && is_filled(self.rest)
    }

    // Its name.
    #[tactic(auto, unfolding(crate::specs::Adn::name_of))]
    pub fn name(self) -> &'a [u8]
        ensures { result.now ≡ name_of self.entry.field.now }
    {
        front(self.field, name_length(self.field))
    }

    // Whether the name is one, and the number not too long.
    #[tactic(auto, unfolding(outcome::specs::Fault::said_at, outcome::specs::Fault::number), using(crate::proofs::AdnLaws::judging))]
    pub fn check(self) -> Result<(), Fault>
        ensures { said_at 0 result ≡ judged self.entry.field.now self.entry.rest.now }
    {
        if !is_name(self.field) {
            return Err(Fault::Name);
        }
        if MAX_NUMBER < first(self.rest) {
            return Err(Fault::NumberLength);
        }
        Ok(())
    }
}

// A dump of records with a name field of `name_length` bytes.
#[derive(Clone, Copy)]
pub struct Dump<'a> {
    pub bytes: &'a [u8],
    pub name_length: u8,
}

impl<'a> Dump<'a> {
    // How many bytes a record takes.
    pub fn width(self) -> usize
        ensures { result ≡ self.entry.name_length + 14 }
    {
        self.name_length as usize + REST
    }

    // The record at an offset; it has fewer bytes where the dump ends before.
    #[tactic(auto, unfolding(part::specs::Part::part))]
    pub fn record(self, at: u64) -> Adn<'a>
        ensures field { result.field.now ≡ take self.entry.name_length (part self.entry.bytes.now at (self.entry.name_length + 14)) }
        ensures rest { result.rest.now ≡ drop self.entry.name_length (part self.entry.bytes.now at (self.entry.name_length + 14)) }
    {
        let bytes = front(behind(self.bytes, at as usize), self.width());
        Adn {
            field: front(bytes, self.name_length as usize),
            rest: rest(bytes, self.name_length),
        }
    }

    // Whether our record of the one at offset a is at most our record of the one at b: as many bytes of both names as the shorter has decide, and
    // where these are equal, what follows them in our records.
    pub fn at_most(self, a: u64, b: u64) -> bool
        ensures { result ≡ at_most (record_at self.entry.name_length self.entry.bytes.now a) (record_at self.entry.name_length self.entry.bytes.now b) }
    {
        let s = self.record(a);
        let t = self.record(b);
        let x = s.name();
        let y = t.name();
        let n = x.len().min(y.len());
        match x[..n].cmp(&y[..n]) {
            Ordering::Equal if x.len() == y.len() => s.rest.cmp(t.rest).is_le(),
            Ordering::Equal => x[n..]
                .iter()
                .chain(s.rest)
                .cmp(y[n..].iter().chain(t.rest))
                .is_le(),
            order => order.is_le(),
        }
    }
}
