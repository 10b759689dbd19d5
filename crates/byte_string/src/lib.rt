// The order of byte strings: unsigned bytes, a proper beginning first.
//
// `compare` is the one comparison: it answers the sign and how many leading bytes agree, and every yes or no is taken of that answer.
#![tactic(auto)]

ghost use Rattle.std.specs.Prelude.{◌+◌, ◌≤◌, ◌≡◌, min, length, drop};
ghost use Rattle.byte_string.specs.Order.{agreeing, comparison, says_less, says_at_most, says_equal, says_begins};

// A byte string x compared with another, y.
#[derive(Clone, Copy)]
pub struct Comparison {
    // Minus one where x comes before y, zero where they are equal, plus one where x comes after y.
    pub sign: i8,
    // How many leading bytes agree.
    pub agreeing: usize,
}

impl Comparison {
    // Whether x comes before y.
    #[tactic(auto, unfolding(crate::specs::Order::says_less))]
    pub fn less(self) -> bool
        ensures { result ≡ says_less self }
    {
        self.sign < 0
    }

    // Whether x comes before y or equals it.
    #[tactic(auto, unfolding(crate::specs::Order::says_at_most))]
    pub fn at_most(self) -> bool
        ensures { result ≡ says_at_most self }
    {
        self.sign <= 0
    }

    // Whether x equals y.
    pub fn equal(self) -> bool
        ensures { result ≡ says_equal self }
    {
        self.sign == 0
    }

    // Whether y begins with x, given how many bytes x has. Given how many y has, whether x begins with y.
    #[tactic(auto, unfolding(crate::specs::Order::says_begins))]
    pub fn begins(self, count: usize) -> bool
        ensures { result ≡ says_begins count self }
    {
        count <= self.agreeing
    }
}

// How many leading bytes of eight and eight agree: the lowest bit that differs stands in the first byte that differs.
fn agreement_of_eight(x: &[u8], y: &[u8]) -> usize
    requires { (length x.now ≡ 8) × (length y.now ≡ 8) }
    ensures { result ≡ agreeing x.now y.now }
{
    u64::trailing_zeros(endian::le64(x) ^ endian::le64(y)) as usize / 8
}

// How many leading bytes agree, where the first `from` do, looked at one by one. `both` is the lesser length.
fn agreement_by_bytes(x: &[u8], y: &[u8], from: usize, both: usize) -> usize
    requires { (from ≤ both) × (both ≡ min (length x.now) (length y.now)) × (agreeing x.now y.now ≡ from + agreeing (drop from x.now) (drop from y.now)) }
    ensures { result ≡ agreeing x.now y.now }
{
    for n in from..both {
        if x[n] != y[n] {
            return n;
        }
    }
    both
}

// How many leading bytes agree, by eights while both have eight more. `both` is the lesser length.
fn agreement_by_eights(x: &[u8], y: &[u8], both: usize) -> usize
    requires { both ≡ min (length x.now) (length y.now) }
    ensures { result ≡ agreeing x.now y.now }
{
    for k in 0..both / 8 {
        let n = 8 * k;
        let more = agreement_of_eight(&x[n..n + 8], &y[n..n + 8]);
        if more < 8 {
            return n + more;
        }
    }
    agreement_by_bytes(x, y, both / 8 * 8, both)
}

// How many leading bytes agree. Often it is none, so that the first byte is looked at alone; fewer than eight bytes go one by one.
fn agreement(x: &[u8], y: &[u8]) -> usize
    ensures { result ≡ agreeing x.now y.now }
{
    let both = x.len().min(y.len());
    if 0 < both {
        if x[0] != y[0] {
            return 0;
        }
        if both < 8 {
            return agreement_by_bytes(x, y, 1, both);
        }
    }
    agreement_by_eights(x, y, both)
}

// Compares x with y.
#[tactic(auto, using(crate::proofs::ComparisonLaws::comparison_below, crate::proofs::ComparisonLaws::comparison_above))]
pub fn compare(x: &[u8], y: &[u8]) -> Comparison
    ensures { result ≡ comparison x.now y.now }
{
    let agreeing = agreement(x, y);
    let sign = match (x.get(agreeing), y.get(agreeing)) {
        (None, None) => 0,
        (None, Some(_)) => -1,
        (Some(_), None) => 1,
        (Some(a), Some(b)) => if *a < *b { -1 } else { 1 },
    };
    Comparison { sign, agreeing }
}
