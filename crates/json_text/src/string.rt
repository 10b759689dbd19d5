// Strings.
ghost use Rattle.std.specs.Prelude.{◌≡◌, ◌≤◌, length, IfSome};
ghost use Rattle.json_grammar.specs.Recogniser.{chars_end, string_end};
ghost use Rattle.json_text.specs.Answers.{left, chars_after};

// The four hex digits of an escape.
#[tactic(auto, using(crate::proofs::StringLaws::hex_cut))]
fn hex_digits(s: &[u8]) -> Option<&[u8]>
    ensures goes_on { chars_after result ≡ chars_end 4 s.now }
    ensures shorter { IfSome result (λ rest. length rest.now ≤ length s.now) }
{
    let (digits, rest) = s.split_at_checked(4)?;
    digits.iter().all(|b| b.is_ascii_hexdigit()).then_some(rest)
}

// What may follow a backslash.
#[tactic(auto, unfolding(json_grammar::specs::Recogniser::chars_end, json_grammar::specs::Recogniser::is_escape, json_grammar::specs::Recogniser::one_of))]
fn escape(s: &[u8]) -> Option<&[u8]>
    ensures goes_on { chars_after result ≡ chars_end 5 s.now }
    ensures shorter { IfSome result (λ rest. length rest.now ≤ length s.now) }
{
    match s {
        [b'u', rest @ ..] => hex_digits(rest),
        [
            b'"' | b'\\' | b'/' | b'b' | b'f' | b'n' | b'r' | b't',
            rest @ ..,
        ] => Some(rest),
        _ => None,
    }
}

// What follows a quotation mark, up to the closing one.
#[tactic(auto, unfolding(json_grammar::specs::Recogniser::chars_end))]
fn chars(s: &[u8]) -> Option<&[u8]>
    ensures { left result ≡ chars_end 0 s.now }
{
    let mut rest = s;
    while let [b, after @ ..] = rest {
        rest = match b {
            b'"' => return Some(after),
            b'\\' => escape(after)?,
            0x00..=0x1f => return None,
            _ => after,
        };
    }
    None
}

#[tactic(auto, unfolding(json_grammar::specs::Recogniser::string_end))]
pub fn string(s: &[u8]) -> Option<&[u8]>
    ensures { left result ≡ string_end s.now }
{
    match s {
        [b'"', rest @ ..] => chars(rest),
        _ => None,
    }
}
