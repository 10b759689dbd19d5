// White space and structural characters.
ghost use Rattle.std.specs.Prelude.{◌≡◌, ℕ, Bool};
ghost use Rattle.json_grammar.specs.Recogniser.{is_space, skip_while, skip, structural_end};
ghost use Rattle.json_text.specs.Answers.{left};

#[tactic(auto, unfolding(json_grammar::specs::Recogniser::is_space, json_grammar::specs::Recogniser::one_of))]
fn is_space(b: u8) -> bool
    ensures { result ≡ is_space b }
{
    b == b' ' || b == b'\t' || b == b'\n' || b == b'\r'
}

// What is left after the bytes at the front that pass a test.
pub fn skip_while<F: Fn(u8) -> bool>(s: &[u8], test: F) -> &[u8]
    requires { F.IsAlwaysCallable test }
    ensures { (p : ℕ → Bool) → ((b : ℕ) (r : Bool) → F.post test b r → r ≡ p b) → result.now ≡ skip_while p s.now }
{
    let mut rest = s;
    while let [b, after @ ..] = rest {
        if !test(*b) {
            return rest;
        }
        rest = after;
    }
    rest
}

// What is left after white space.
pub fn skip(s: &[u8]) -> &[u8]
    ensures { result.now ≡ skip s.now }
{
    skip_while(s, is_space)
}

// A structural character, and the white space after it.
#[tactic(auto, unfolding(json_grammar::specs::Recogniser::structural_end))]
pub fn structural(s: &[u8], character: u8) -> Option<&[u8]>
    ensures { left result ≡ structural_end character s.now }
{
    match s {
        [b, rest @ ..] if *b == character => Some(skip(rest)),
        _ => None,
    }
}
