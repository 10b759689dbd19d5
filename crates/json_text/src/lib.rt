// Recognising JSON (RFC 8259), in one pass over the bytes.
//
// An inner function answers what is left after the text that it is named after, if one stands at the front of the bytes.
#![tactic(auto)]

ghost use Rattle.std.specs.Prelude.{◌≡◌};
ghost use Rattle.json_grammar.specs.Recogniser.{is_object};

mod number;
mod scalar;
mod space;
mod string;
mod value;

use value::{Kind, container};

// How deep objects and arrays may be nested, the outermost being 1.
const MAX_DEPTH: u8 = 64;

// Whether the bytes are an object, with white space after it allowed.
#[tactic(auto, using(crate::proofs::ContainerLaws::whole))]
pub fn is_object(s: &[u8]) -> bool
    ensures { result ≡ is_object 64 s.now }
{
    container(s, Kind::Object, MAX_DEPTH).is_some_and(|rest| rest.is_empty())
}
