// A writing session as a value: its numbers, what a step answers, and one session made of another.
#![tactic(auto)]

ghost use Rattle.std.specs.Prelude.{◌+◌, ◌≤◌, ◌^◌, ◌≡◌};
ghost use Rattle.layout.specs.Blocks.{block_size};
ghost use Rattle.session_value.specs.Held.{session_of, stepped};
ghost use Rattle.session_value.specs.Stage as stages;
ghost use Rattle.session_value.specs.Values as values;

use encoder::block_size;
use index_encoder::file_room;
use outcome::Fault;
use uleb128::number_length;

// What a session stands at.
pub const AFRESH: u64 = 0;

const BEGUN: u64 = 1;

const FINISHED: u64 = 2;

// How many bytes a block's CRC takes.
pub const CRC: u64 = 8;

// A session: the record count, the last record's offset and the next block's offset, and what the next step needs.
#[repr(C)]
#[derive(Clone, Copy)]
pub struct Session {
    pub records: u64,
    pub last: u64,
    pub next: u64,
    // Afresh, begun or finished: 0, 1, 2.
    pub stage: u64,
    // Where the blocks begin.
    pub blocks: u64,
    pub perblock: u64,
    pub perindex: u64,
    // The open block: where it begins, how many records it has, how long its payload is, and the CRC's register after level byte and payload.
    pub start: u64,
    pub count: u64,
    pub payload: u64,
    pub crc: u64,
}

// Number and place of a refusal, both 0 without one, and the session after the step.
#[repr(C)]
#[derive(Clone, Copy)]
pub struct Stepped {
    pub number: u64,
    pub place: u64,
    pub session: Session,
}

impl Session {
    // The session before begin.
    #[tactic(auto, unfolding(crate::specs::Held::session_of))]
    pub fn afresh() -> Session
        ensures { result ≡ session_of stages.afresh }
    {
        Session {
            records: 0,
            last: 0,
            next: 0,
            stage: AFRESH,
            blocks: 0,
            perblock: 0,
            perindex: 0,
            start: 0,
            count: 0,
            payload: 0,
            crc: 0,
        }
    }

    // The session once a file is begun, whose blocks begin at `blocks`.
    pub fn begun_at(blocks: u64, per_block: u64, per_index: u64) -> Session
        ensures { result ≡ values.begun_session blocks per_block per_index }
    {
        let begun = Session {
            next: blocks,
            stage: BEGUN,
            blocks,
            perblock: per_block,
            perindex: per_index,
            ..Session::afresh()
        };
        begun.closed()
    }

    // Whether it is between begin and finish, and its numbers are such as an output of `room` bytes can hold.
    #[tactic(auto, unfolding(crate::specs::Values::is_begun))]
    pub fn is_begun(self, room: usize) -> bool
        ensures { result ≡ values.is_begun self room }
    {
        self.stage == BEGUN
            && self.next <= file_room(room) as u64
            && self.payload <= self.next
            && self.records <= self.next
            && self.count <= 65535
    }

    // The open block closed.
    #[tactic(auto, unfolding(crate::specs::Values::closed_session))]
    pub fn closed(self) -> Session
        ensures { result ≡ values.closed_session self }
    {
        Session {
            start: self.next,
            count: 0,
            payload: 0,
            crc: crc64::absorb(crc64::begin(), &[0]),
            ..self
        }
    }

    // The open block closed where it is full.
    #[tactic(auto, unfolding(crate::specs::Values::unfull_session))]
    pub fn unfull(self) -> Session
        ensures { result ≡ values.unfull_session self }
    {
        if self.perblock <= self.count {
            self.closed()
        } else {
            self
        }
    }

    // The size of the open block framed with a record of this length more, where it fits.
    pub fn framed_size(self, length: usize, room: usize) -> Option<usize>
        ensures { result ≡ values.framed_size self length room }
    {
        let most = file_room(room);
        if most < length || (most as u64) < self.payload {
            return None;
        }
        let payload = self.payload as usize + number_length(length as u64) + length;
        block_size(most, self.start as usize, payload)
    }

    // The session with a record of this length in the open block, which now has this size and this register.
    pub fn added(self, length: usize, size: usize, crc: u64) -> Session
        requires { (self.start + size ≤ 2 ^ 30) × (block_size (self.payload + values.text_size length) ≤ size) × (self.records ≤ 2 ^ 30)
            × (self.count ≤ 65535) }
        ensures { result ≡ values.added_session self length size crc }
    {
        let next = self.start + size as u64;
        let length = length as u64;
        Session {
            records: self.records + 1,
            last: next - CRC - length,
            next,
            count: self.count + 1,
            payload: self.payload + number_length(length) as u64 + length,
            crc,
            ..self
        }
    }

    // The session once the file is finished, and this long.
    #[tactic(auto, unfolding(crate::specs::Values::finished_session, crate::specs::Held::session_of))]
    pub fn finished(self, total: usize) -> Session
        ensures { result ≡ values.finished_session self total }
    {
        Session {
            records: self.records,
            last: self.last,
            next: total as u64,
            stage: FINISHED,
            ..Session::afresh()
        }
    }

    // What a step from this session answers: the session after it, or why it is refused.
    #[tactic(auto, unfolding(crate::specs::Held::stepped))]
    pub fn stepped(self, step: Result<Session, Fault>) -> Stepped
        ensures { result ≡ stepped self step }
    {
        match step {
            Ok(session) => answered(0, session),
            Err(fault) => answered(fault.number(), self),
        }
    }
}

// The answer of a step with this number, which has no place.
pub fn answered(number: u64, session: Session) -> Stepped
    ensures { result ≡ record { number = number; place = 0; session = session } }
{
    Stepped {
        number,
        place: 0,
        session,
    }
}
