// Values that hold no others.
ghost use Rattle.std.specs.Prelude.{◌≡◌};
ghost use Rattle.json_grammar.specs.Recogniser.{scalar_end, plain_end};
ghost use Rattle.json_text.specs.Answers.{left};

use crate::number::number;
use crate::space::skip;
use crate::string::string;

// False, null, true, a string or a number.
#[tactic(auto, using(crate::proofs::ScalarLaws::scalars), unfolding(json_grammar::specs::Recogniser::scalar_end))]
fn scalar(s: &[u8]) -> Option<&[u8]>
    ensures { left result ≡ scalar_end s.now }
{
    match s {
        [b'"', ..] => string(s),
        [b'f', ..] => s.strip_prefix(b"false"),
        [b'n', ..] => s.strip_prefix(b"null"),
        [b't', ..] => s.strip_prefix(b"true"),
        _ => number(s),
    }
}

// A scalar, and the white space after it.
#[tactic(auto, using(crate::proofs::FrontLaws::going_on), unfolding(json_grammar::specs::Recogniser::plain_end))]
pub fn plain(s: &[u8]) -> Option<&[u8]>
    ensures { left result ≡ plain_end s.now }
{
    Some(skip(scalar(s)?))
}
