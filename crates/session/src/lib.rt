// A writing session: a file made one record at a time in a lent output. The session is a value: each step is lent the output and hands the
// next session back. Every step takes any session and any output safely; what it does is promised for a session and an output as last handed
// back.
#![tactic(auto)]

ghost use Rattle.std.specs.Prelude.{ℕ, [], ◌∷◌, ◌≡◌, length};
ghost use Rattle.output_list.specs.OutputList.{zeros};
ghost use Rattle.session_value.specs.Stage.{Draft, Stage, begun, output_of};
ghost use Rattle.session_value.specs.Stage as stages;
ghost use Rattle.session_value.specs.Steps.{is_next, begin_of, add_of, close_of, finish_of};
ghost use Rattle.session_value.specs.Held.{Held, StepTaken, OneOf, session_of, stepped};

use outcome::Fault;
use session_value::{AFRESH, CRC, Session, Stepped};

// Starts afresh, on any output: all zeros, and nothing is written.
pub fn start_afresh(output: &mut [u8]) -> Session
    ensures value { result ≡ session_of stages.afresh }
    ensures output_after { output.new ≡ zeros (length output.old) }
{
    output.fill(0);
    Session::afresh()
}

// Begins a file: metadata, how many records a data block and how many entries an index block holds (28, 30, 9, 31).
pub fn begin(
    session: Session,
    metadata: &[u8],
    per_block: u64,
    per_index: u64,
    output: &mut [u8],
) -> Stepped
    ensures step_taken { (stage : Stage) → Held stage session output.old
        → StepTaken stage (begin_of stage metadata.now per_block per_index (length output.old))
        (length output.old) result output.new }
    ensures one_of { OneOf (0 ∷ 28 ∷ 30 ∷ 9 ∷ 31 ∷ []) result.number }
{
    session.stepped(try_begin(session, metadata, per_block, per_index, output))
}

// The session then, or why the step is refused.
#[tactic(auto, unfolding(lists::specs::Lists::any, session_value::specs::Held::OneOf, session_value::specs::Held::stepped, session_value::specs::Held::stepped_answer, session_value::specs::Steps::after, outcome::specs::Outcome::number_of, outcome::specs::Outcome::place_of, outcome::specs::Fault::number), using(crate::proofs::BeginLaws::begin_again))]
fn try_begin(
    session: Session,
    metadata: &[u8],
    per_block: u64,
    per_index: u64,
    output: &mut [u8],
) -> Result<Session, Fault>
    ensures step_taken { (stage : Stage) → Held stage session output.old
        → StepTaken stage (begin_of stage metadata.now per_block per_index (length output.old))
        (length output.old) (stepped session result) output.new }
    ensures one_of { OneOf (0 ∷ 28 ∷ 30 ∷ 9 ∷ 31 ∷ []) (stepped session result).number }
{
    if session.stage != AFRESH {
        return Err(Fault::Input);
    }
    if !file_encoder::counts_fit(per_block, per_index) {
        return Err(Fault::Counts);
    }
    if !header::is_metadata(metadata) {
        return Err(Fault::Metadata);
    }
    let blocks = file_encoder::begin_file(output, metadata).ok_or(Fault::OutputRoom)?;
    Ok(Session::begun_at(blocks as u64, per_block, per_index))
}

// Adds a record; a full block is closed first (28, 29, 31).
pub fn add(session: Session, record: &[u8], output: &mut [u8]) -> Stepped
    ensures step_taken { (stage : Stage) → Held stage session output.old
        → StepTaken stage (add_of stage «record».now (length output.old))
        (length output.old) result output.new }
    ensures one_of { OneOf (0 ∷ 28 ∷ 29 ∷ 31 ∷ []) result.number }
{
    session.stepped(try_add(session, record, output))
}

// The session then, or why the step is refused.
fn try_add(session: Session, record: &[u8], output: &mut [u8]) -> Result<Session, Fault>
    ensures step_taken { (stage : Stage) → Held stage session output.old
        → StepTaken stage (add_of stage «record».now (length output.old))
        (length output.old) (stepped session result) output.new }
    ensures one_of { OneOf (0 ∷ 28 ∷ 29 ∷ 31 ∷ []) (stepped session result).number }
{
    if !session.is_begun(output.len()) {
        return Err(Fault::Input);
    }
    if !is_next(session, record, output) {
        return Err(Fault::InputOrder);
    }
    let s = session.unfull();
    let size = s
        .framed_size(record.len(), output.len())
        .ok_or(Fault::OutputRoom)?;
    let crc = open_block::put_record(output, s.start as usize, s.payload as usize, s.crc, record);
    Ok(s.added(record.len(), size, crc))
}

// Whether a record is at least the last one, which ends before the CRC of its block.
fn is_next(session: Session, record: &[u8], output: &[u8]) -> bool
    ensures { (d : Draft) → Held (begun d) session output.now → result ≡ is_next d «record».now }
{
    if session.records == 0 {
        return true;
    }
    let end = session.next.saturating_sub(CRC);
    let last = record::record(output, session.last, end.saturating_sub(session.last));
    byte_string::compare(last, record).at_most()
}

// Closes the open block (28).
pub fn close_block(session: Session, output: &[u8]) -> Stepped
    ensures step_taken { (stage : Stage) → Held stage session output.now → StepTaken stage (close_of stage) (length output.now) result output.now }
    ensures one_of { OneOf (0 ∷ 28 ∷ []) result.number }
{
    if !session.is_begun(output.len()) || session.count == 0 {
        return session.stepped(Err(Fault::Input));
    }
    session.stepped(Ok(session.closed()))
}

// Finishes the file: the index over its data blocks, and the header (28, 31).
pub fn finish(session: Session, output: &mut [u8]) -> Stepped
    ensures step_taken { (stage : Stage) → Held stage session output.old
        → StepTaken stage (finish_of stage (length output.old)) (length output.old) result output.new }
    ensures one_of { OneOf (0 ∷ 28 ∷ 31 ∷ []) result.number }
{
    session.stepped(try_finish(session, output))
}

// The session then, or why the step is refused.
fn try_finish(session: Session, output: &mut [u8]) -> Result<Session, Fault>
    ensures step_taken { (stage : Stage) → Held stage session output.old
        → StepTaken stage (finish_of stage (length output.old)) (length output.old) (stepped session result) output.new }
    ensures one_of { OneOf (0 ∷ 28 ∷ 31 ∷ []) (stepped session result).number }
{
    if !session.is_begun(output.len()) || session.records == 0 {
        return Err(Fault::Input);
    }
    let from = session.blocks as usize;
    let to = session.next as usize;
    let hash = sha256::finish(check_hash::hashed(&output[..to], from));
    let total = file_encoder::finish_file(output, from, to, session.perindex, hash);
    Ok(session.finished(total.ok_or(Fault::OutputRoom)?))
}
