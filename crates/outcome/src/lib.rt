// An answer or a refusal: why, and where. The definitions are in specs/, their laws in proofs/.
#![tactic(auto)]

ghost use Rattle.std.specs.Prelude.{◌≡◌};
ghost use Rattle.outcome.specs.Fault.{number, at_front};

// Why a file, an input or a call is refused. The numbers are the interface's; docs/FORMAT.md has them in a table.
#[derive(Clone, Copy)]
pub enum Fault {
    // The header, which has place 0.
    FileTooLong = 1,
    Unfinished = 2,
    Magic = 3,
    HeaderCutOff = 4,
    HeaderCrc = 5,
    HeaderLengths = 6,
    Codec = 7,
    FileLength = 8,
    Metadata = 9,
    // One block.
    BlockCutOff = 10,
    NumberTooWide = 11,
    NumberNotShortest = 12,
    EmptyBlock = 13,
    BlockCrc = 14,
    Payload = 15,
    RecordOrder = 16,
    // The tree.
    Root = 17,
    WorkRoom = 18,
    EntryTarget = 19,
    NamedOnce = 20,
    KeyOrder = 21,
    WalkOrder = 22,
    BlockOrder = 23,
    Key = 24,
    Hash = 25,
    // A query.
    OpenedRoom = 26,
    ResultRoom = 27,
    // What is written.
    Input = 28,
    InputOrder = 29,
    Counts = 30,
    OutputRoom = 31,
    // A dump of a phonebook.
    Dump = 32,
    Name = 33,
    NumberLength = 34,
    // A comparison.
    DifferenceRoom = 35,
}

impl Fault {
    // Its number.
    #[tactic(auto, unfolding(crate::specs::Fault::number))]
    pub fn number(self) -> u64
        ensures { result ≡ number self }
    {
        self as u64
    }
}

// A refusal: why, and the place at fault.
#[derive(Clone, Copy)]
pub struct Refusal {
    pub fault: Fault,
    pub place: u64,
}

// A fault of the file as a whole, or of what was lent, has place 0.
impl From<Fault> for Refusal {
    ghost from_gives = { λ fault r. r ≡ at_front fault };

    #[tactic(auto, unfolding(crate::specs::Fault::at_front))]
    fn from(fault: Fault) -> Refusal {
        Refusal { fault, place: 0 }
    }
}
