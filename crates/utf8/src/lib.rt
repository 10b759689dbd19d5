// UTF-8, as RFC 3629 (section 4) has it: no overlong forms, no surrogates, nothing above 10FFFF.
#![tactic(auto)]

ghost use Rattle.std.specs.Prelude.{◌≡◌};
ghost use Rattle.utf8.specs.Utf8.{is_utf8};

// Whether the bytes are UTF-8.
#[tactic(auto, using(crate::proofs::StdLaws::utf8))]
pub fn is_utf8(s: &[u8]) -> bool
    ensures { result ≡ is_utf8 s.now }
{
    str::from_utf8(s).is_ok()
}
