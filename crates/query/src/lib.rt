// Queries: whether a record matches, and whether a block between two bounds may hold a match.
#![tactic(auto)]

ghost use Rattle.std.specs.Prelude.{◌≡◌};
ghost use Rattle.query.specs.Query.{query_of, before, matches};
ghost use Rattle.query.specs.Opening.{may_match, reaches, up_to, admits_prefix};
ghost use Rattle.query.specs.Asked.{asked, lent};

// A start, a stop that is given or not, and a prefix; start and prefix may be empty.
#[derive(Clone, Copy)]
pub struct Query<'a> {
    pub start: &'a [u8],
    pub stop: Option<&'a [u8]>,
    pub prefix: &'a [u8],
}

impl<'a> Query<'a> {
    // The query of a call from C. Where no stop is given, the bytes of `stop` have no influence.
    #[tactic(auto, unfolding(crate::specs::Query::query_of, crate::specs::Query::given, crate::specs::Asked::asked, crate::specs::Asked::lent))]
    pub fn new(start: &'a [u8], stop_given: bool, stop: &'a [u8], prefix: &'a [u8]) -> Query<'a>
        ensures { asked result ≡ query_of start.now stop_given stop.now prefix.now }
    {
        let stop = if stop_given { Some(stop) } else { None };
        Query {
            start,
            stop,
            prefix,
        }
    }

    // Whether a byte string matches.
    #[tactic(auto, unfolding(crate::specs::Query::matches, crate::specs::Asked::asked), using(byte_string::proofs::ComparisonLaws::compared))]
    pub fn matches(self, x: &[u8]) -> bool
        ensures { result ≡ matches (asked self.entry) x.now }
    {
        byte_string::compare(self.start, x).at_most()
            && before(x, self.stop)
            && byte_string::compare(self.prefix, x).begins(self.prefix.len())
    }

    // The opening test: whether any byte string from `lower` to `upper`, both included, matches.
    #[tactic(auto, unfolding(crate::specs::Opening::may_match, crate::specs::Asked::asked))]
    pub fn may_match(self, lower: &[u8], upper: Option<&[u8]>) -> bool
        ensures { result ≡ may_match lower.now (lent upper.entry) (asked self.entry) }
    {
        reaches(lower, upper, self.stop)
            && reaches(self.start, upper, self.stop)
            && reaches(self.prefix, upper, self.stop)
            && admits_prefix(lower, self.prefix)
            && admits_prefix(self.start, self.prefix)
    }
}

// Whether x is less than the stop, where there is one.
#[tactic(auto, unfolding(crate::specs::Query::before, crate::specs::Asked::lent), using(byte_string::proofs::ComparisonLaws::compared))]
fn before(x: &[u8], stop: Option<&[u8]>) -> bool
    ensures { result ≡ before x.now (lent stop.entry) }
{
    match stop {
        Some(stop) => byte_string::compare(x, stop).less(),
        None => true,
    }
}

// Whether x is at most the upper bound, where there is one.
#[tactic(auto, unfolding(crate::specs::Opening::up_to, crate::specs::Asked::lent), using(byte_string::proofs::ComparisonLaws::compared))]
fn up_to(x: &[u8], upper: Option<&[u8]>) -> bool
    ensures { result ≡ up_to x.now (lent upper.entry) }
{
    match upper {
        Some(upper) => byte_string::compare(x, upper).at_most(),
        None => true,
    }
}

// Whether x is neither past the upper bound nor at or past the stop.
#[tactic(auto, unfolding(crate::specs::Opening::reaches))]
fn reaches(x: &[u8], upper: Option<&[u8]>, stop: Option<&[u8]>) -> bool
    ensures { result ≡ reaches x.now (lent upper.entry) (lent stop.entry) }
{
    up_to(x, upper) && before(x, stop)
}

// Whether some byte string from `from` on begins with the prefix.
#[tactic(auto, unfolding(crate::specs::Opening::admits_prefix), using(byte_string::proofs::ComparisonLaws::compared))]
fn admits_prefix(from: &[u8], prefix: &[u8]) -> bool
    ensures { result ≡ admits_prefix from.now prefix.now }
{
    let compared = byte_string::compare(from, prefix);
    compared.at_most() || compared.begins(prefix.len())
}
