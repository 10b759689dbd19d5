// Numbers.
ghost use Rattle.std.specs.Prelude.{◌≡◌};
ghost use Rattle.json_grammar.specs.Recogniser as recogniser;
ghost use Rattle.json_text.specs.Answers.{left};

use crate::space::skip_while;

// One digit or more.
#[tactic(auto, unfolding(json_grammar::specs::Recogniser::digits_end, json_grammar::specs::Recogniser::is_digit))]
fn digits(s: &[u8]) -> Option<&[u8]>
    ensures { left result ≡ recogniser.digits_end s.now }
{
    match s {
        [b'0'..=b'9', rest @ ..] => Some(skip_while(rest, |b| b.is_ascii_digit())),
        _ => None,
    }
}

#[tactic(auto, unfolding(json_grammar::specs::Recogniser::skip_minus))]
fn skip_minus(s: &[u8]) -> &[u8]
    ensures { result.now ≡ recogniser.skip_minus s.now }
{
    match s {
        [b'-', rest @ ..] => rest,
        _ => s,
    }
}

// The integer: zero, or digits that don't begin with one.
#[tactic(auto, unfolding(json_grammar::specs::Recogniser::int_end, json_grammar::specs::Recogniser::digits_end))]
fn int(s: &[u8]) -> Option<&[u8]>
    ensures { left result ≡ recogniser.int_end s.now }
{
    match s {
        [b'0', rest @ ..] => Some(rest),
        _ => digits(s),
    }
}

// The fraction, or nothing.
#[tactic(auto, unfolding(json_grammar::specs::Recogniser::frac_end))]
fn frac(s: &[u8]) -> Option<&[u8]>
    ensures { left result ≡ recogniser.frac_end s.now }
{
    match s {
        [b'.', rest @ ..] => digits(rest),
        _ => Some(s),
    }
}

#[tactic(auto, unfolding(json_grammar::specs::Recogniser::skip_sign, json_grammar::specs::Recogniser::one_of))]
fn skip_sign(s: &[u8]) -> &[u8]
    ensures { result.now ≡ recogniser.skip_sign s.now }
{
    match s {
        [b'-' | b'+', rest @ ..] => rest,
        _ => s,
    }
}

// The exponent, or nothing.
#[tactic(auto, unfolding(json_grammar::specs::Recogniser::exp_end, json_grammar::specs::Recogniser::one_of))]
fn exp(s: &[u8]) -> Option<&[u8]>
    ensures { left result ≡ recogniser.exp_end s.now }
{
    match s {
        [b'e' | b'E', rest @ ..] => digits(skip_sign(rest)),
        _ => Some(s),
    }
}

#[tactic(auto, using(crate::proofs::FrontLaws::going_on), unfolding(json_grammar::specs::Recogniser::number_end))]
pub fn number(s: &[u8]) -> Option<&[u8]>
    ensures { left result ≡ recogniser.number_end s.now }
{
    exp(frac(int(skip_minus(s))?)?)
}
