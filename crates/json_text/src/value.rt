// Values, objects and arrays, which hold each other.
ghost use Rattle.std.specs.Prelude.{◌≡◌};
ghost use Rattle.json_grammar.specs.Recogniser.{value_end, name_end};
ghost use Rattle.json_text.specs.Answers.{left, opening_of, closing_of, name_of, container_of};

use crate::scalar::plain;
use crate::space::{skip, structural};
use crate::string::string;

// The kinds of containers, which are values that hold others.
#[derive(Clone, Copy)]
pub enum Kind {
    Object,
    Array,
}

impl Kind {
    fn opening(self) -> u8
        ensures { result ≡ opening_of self }
    {
        match self {
            Kind::Object => b'{',
            Kind::Array => b'[',
        }
    }

    fn closing(self) -> u8
        ensures { result ≡ closing_of self }
    {
        match self {
            Kind::Object => b'}',
            Kind::Array => b']',
        }
    }

    // What is left after the name of an item; a value of an array has none.
    fn after_name(self, s: &[u8]) -> Option<&[u8]>
        ensures { left result ≡ name_of self s.now }
    {
        match self {
            Kind::Object => name(s),
            Kind::Array => Some(s),
        }
    }
}

// The name of a member, and its separator.
#[tactic(auto, using(crate::proofs::FrontLaws::going_on), unfolding(json_grammar::specs::Recogniser::name_end))]
fn name(s: &[u8]) -> Option<&[u8]>
    ensures { left result ≡ name_end s.now }
{
    structural(skip(string(s)?), b':')
}

// A value with objects and arrays nested at most `depth` deep, and the white space after it.
#[cycle(container_value)]
#[tactic(auto, using(crate::proofs::ContainerLaws::values))]
fn value(s: &[u8], depth: u8) -> Option<&[u8]>
    ensures { left result ≡ value_end depth s.now }
{
    match s {
        [b'{', ..] => container(s, Kind::Object, depth),
        [b'[', ..] => container(s, Kind::Array, depth),
        _ => plain(s),
    }
}

// An object or an array, itself among the `depth`, and the white space after it.
#[cycle(container_value)]
#[tactic(auto, using(crate::proofs::ContainerLaws::containers))]
pub fn container(s: &[u8], kind: Kind, depth: u8) -> Option<&[u8]>
    ensures { left result ≡ container_of kind depth s.now }
{
    let inner = depth.checked_sub(1)?;
    let mut rest = structural(s, kind.opening())?;
    if let Some(end) = structural(rest, kind.closing()) {
        return Some(end);
    }
    loop {
        let after = value(kind.after_name(rest)?, inner)?;
        if let Some(end) = structural(after, kind.closing()) {
            return Some(end);
        }
        rest = structural(after, b',')?;
    }
}
