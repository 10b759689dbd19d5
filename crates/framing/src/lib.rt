// Numbers and frames at an offset.
//
// Every function is total: it reads at any offset of any bytes and answers what is there, or why nothing is. A fault's place is the start of
// the block at fault, which the caller knows: the contracts of the numbers hold for whatever place that is.
#![tactic(auto)]

ghost use Rattle.std.specs.Prelude.{ℕ, ◌+◌, ◌≤◌, ◌≡◌, length};
ghost use Rattle.outcome.specs.Fault.{number, said_at};
ghost use Rattle.framing.specs.Frame as frames;
ghost use Rattle.framing.specs.Answers.{number_said};

use items::Step;
use outcome::Fault;
use uleb128::NumberFault;

// Where a block lies. The L bytes of the block, level byte and payload, go from `body` to `end`.
#[derive(Clone, Copy)]
pub struct Frame {
    pub start: usize,
    // The full size: number, L bytes and CRC.
    pub size: usize,
    pub level: u8,
    pub body: usize,
    pub end: usize,
}

impl Frame {
    // The largest level of an ordinary block; higher levels are reserved.
    pub const LARGEST_LEVEL: u8 = 63;

    // Whether it encloses an ordinary block: data or index.
    #[tactic(auto, unfolding(crate::specs::Frame::is_ordinary))]
    pub fn is_ordinary(self) -> bool
        ensures { result ≡ frames.is_ordinary self.level }
    {
        self.level <= Frame::LARGEST_LEVEL
    }
}

// The number at an offset of `s`, which ends with `s`, and where it ends.
pub fn number_at(s: &[u8], at: usize) -> Result<Step<u64>, NumberFault>
    ensures { (cut place : ℕ) → number_said cut place result ≡ frames.number_at cut place s.now at }
{
    if s.len() < at {
        return Err(NumberFault::CutOff);
    }
    let read = uleb128::read_number(&s[at..])?;
    Ok(Step {
        item: read.value,
        next: at + read.used,
    })
}

// Likewise, with the fault of a file or an input; `cut` where the number is cut off.
#[tactic(auto, unfolding(outcome::specs::Fault::said_at, outcome::specs::Fault::number, crate::specs::Answers::number_said))]
pub fn number_or(s: &[u8], at: usize, cut: Fault) -> Result<Step<u64>, Fault>
    ensures { (place : ℕ) → said_at place result ≡ frames.number_at (number cut) place s.now at }
{
    match number_at(s, at) {
        Ok(read) => Ok(read),
        Err(NumberFault::CutOff) => Err(cut),
        Err(NumberFault::TooWide) => Err(Fault::NumberTooWide),
        Err(NumberFault::NotShortest) => Err(Fault::NumberNotShortest),
    }
}

// The frame at an offset, apart from its CRC (10 to 13).
#[tactic(auto, unfolding(outcome::specs::Fault::said_at, outcome::specs::Fault::number, crate::specs::Frame::frame_at), using(crate::proofs::FrameLaws::chain))]
pub fn frame_at(file: &[u8], at: usize) -> Result<Frame, Fault>
    ensures { said_at at result ≡ frames.frame_at file.now at }
{
    let extent = number_or(file, at, Fault::BlockCutOff)?;
    framed(file, at, extent)
}

// The frame whose number L has been read.
#[tactic(auto, unfolding(outcome::specs::Fault::said_at, outcome::specs::Fault::number), using(crate::proofs::FrameLaws::framed_cases))]
fn framed(file: &[u8], at: usize, extent: Step<u64>) -> Result<Frame, Fault>
    requires { (at ≤ extent.next) × (extent.next ≤ length file.now) }
    ensures { said_at at result ≡ frames.framed file.now at extent }
{
    if extent.item < 1 {
        return Err(Fault::EmptyBlock);
    }
    let body = extent.next;
    let left = file.len() - body;
    if left < 8 || ((left - 8) as u64) < extent.item {
        return Err(Fault::BlockCutOff);
    }
    let end = body + extent.item as usize;
    Ok(Frame {
        start: at,
        size: end + 8 - at,
        level: file[body],
        body,
        end,
    })
}

// Whether the CRC after the bytes from `body` to `end` is theirs.
#[tactic(auto, unfolding(crate::specs::Frame::crc_right, part::specs::Part::part))]
pub fn crc_right(file: &[u8], body: usize, end: usize) -> bool
    requires { (body ≤ end) × (end ≤ length file.now) }
    ensures { result ≡ frames.crc_right file.now body end }
{
    endian::le64_at(file, end) == crc64::checksum(&file[body..end])
}

// The frame at an offset with its CRC (10 to 14).
#[tactic(auto, unfolding(outcome::specs::Fault::said_at, outcome::specs::Fault::number), using(crate::proofs::FrameLaws::sound_cases))]
pub fn sound_frame_at(file: &[u8], at: usize) -> Result<Frame, Fault>
    ensures { said_at at result ≡ frames.sound_frame_at file.now at }
{
    let frame = frame_at(file, at)?;
    if !crc_right(file, frame.body, frame.end) {
        return Err(Fault::BlockCrc);
    }
    Ok(frame)
}
