// Where a part of one of two files lies.
ghost use Rattle.std.specs.Prelude.{◌≡◌};
ghost use Rattle.shown.specs.Shown.{part_shown};
ghost use Rattle.shown.specs.Which.{number, file_of, which_of, place_of};

use part::Part;
use record::is_within;

// One of two files.
#[derive(Clone, Copy)]
pub enum Which {
    First = 1,
    Second = 2,
}

impl Which {
    // Its number.
    #[tactic(auto, unfolding(crate::specs::Which::number))]
    pub fn number(self) -> u64
        ensures { result ≡ number self }
    {
        self as u64
    }

    // The one of two files that it is.
    #[tactic(auto, unfolding(crate::specs::Which::file_of))]
    pub fn of<'a>(self, first: &'a [u8], second: &'a [u8]) -> &'a [u8]
        ensures result_value { result.now ≡ file_of first.now second.now self }
        ensures ref_ptr_value { result.ref_ptr ≡ file_of first.entry.ref_ptr second.entry.ref_ptr self }
    {
        match self {
            Which::First => first,
            Which::Second => second,
        }
    }
}

// The file with this number, if it is 1 or 2.
impl TryFrom<u64> for Which {
    type Error = ();

    ghost try_from_gives = { λ n r. r ≡ which_of n };

    #[tactic(auto, unfolding(crate::specs::Which::which_of))]
    fn try_from(n: u64) -> Result<Which, ()> {
        match n {
            1 => Ok(Which::First),
            2 => Ok(Which::Second),
            _ => Err(()),
        }
    }
}

// A part of the first file where `which` is 1, of the second where it is 2.
#[repr(C)]
#[derive(Clone, Copy)]
pub struct Shown {
    pub which: u64,
    pub offset: usize,
    pub length: usize,
}

// The part that the numbers name, and the file that it is of; no bytes of the first file at 0 where they name none.
#[tactic(auto, using(crate::proofs::ShownLaws::part_inside, crate::proofs::ShownLaws::part_outside, crate::proofs::ShownLaws::part_of_none))]
pub(crate) fn place(
    first: &[u8],
    second: &[u8],
    which: u64,
    offset: u64,
    length: u64,
) -> (Which, Part)
    ensures { place_of result.0 result.1 ≡ part_shown first.now second.now which offset length }
{
    match Which::try_from(which) {
        Ok(file) if is_within(file.of(first, second), offset, length) => (
            file,
            Part {
                offset: offset as usize,
                length: length as usize,
            },
        ),
        _ => (Which::First, Part::NONE),
    }
}

// Where the part lies that the numbers name; no bytes of the first file at 0 where they name none.
#[tactic(auto, unfolding(crate::specs::Which::place_of))]
pub fn part_shown(first: &[u8], second: &[u8], which: u64, offset: u64, length: u64) -> Shown
    ensures { result ≡ part_shown first.now second.now which offset length }
{
    let (file, part) = place(first, second, which, offset, length);
    Shown {
        which: file.number(),
        offset: part.offset,
        length: part.length,
    }
}
