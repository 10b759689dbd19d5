// What a function that fills a lent output answers.
#![tactic(auto)]

ghost use Rattle.std.specs.Prelude.{◌≡◌};
ghost use Rattle.outcome.specs.Outcome.{refused};
ghost use Rattle.outcome.specs.Fault.{number};
ghost use Rattle.written.specs.Written.{written_answer};

use outcome::Fault;

// Number and place of a refusal, both 0 without one, and how many bytes were written.
#[repr(C)]
#[derive(Clone, Copy)]
pub struct Written {
    pub number: u64,
    pub place: u64,
    pub length: u64,
}

// The answer after a fault, which has no place.
impl From<Fault> for Written {
    ghost from_gives = { λ fault w. w ≡ written_answer (refused (number fault) 0) };

    fn from(fault: Fault) -> Written {
        refusal(fault.number())
    }
}

// The answer after a refusal with this number, which has no place.
pub fn refusal(number: u64) -> Written
    ensures { result ≡ written_answer (refused number 0) }
{
    Written {
        number,
        place: 0,
        length: 0,
    }
}
