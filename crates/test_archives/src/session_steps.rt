// Call 10: the steps of a session. The file of the case holds them.
use crate::lent::{RUBBISH_BYTE, room};
use crate::print;
use crate::steps::{Step, next_step};
use session_value::{Session, Stepped};
use std::io;
use std::io::Write;

const AFRESH: u8 = 1;

// Not a step: the output gets longer.
const GROW: u8 = 6;

// How many bytes of the output are lent from a step on.
fn room_from(step: Step<'_>, room: u64) -> u64 {
    match step.kind {
        AFRESH | GROW => step.first,
        _ => room,
    }
}

// Clears the bytes of the output by which it gets longer.
fn clear_more(output: &mut [u8], from: usize, to: usize) {
    if to <= output.len() {
        if from < to {
            output[from..to].fill(0);
        }
    }
}

// Takes a step with all of `output` lent.
fn take(step: Step<'_>, session: Session, output: &mut [u8]) -> Stepped {
    match step.kind {
        1 => session.stepped(Ok(session::start_afresh(output))),
        2 => session::begin(session, step.bytes, step.first, step.second, output),
        3 => session::add(session, step.bytes, output),
        4 => session::close_block(session, output),
        5 => session::finish(session, output),
        _ => session.stepped(Ok(session)),
    }
}

fn print_word(out: &mut impl Write, kind: u8) -> io::Result<()> {
    match kind {
        1 => write!(out, " afresh"),
        2 => write!(out, " begin"),
        3 => write!(out, " add"),
        4 => write!(out, " close"),
        5 => write!(out, " finish"),
        _ => write!(out, " unknown step"),
    }
}

// Prints the answer of a step, and the hash of the whole output.
fn print_answer(out: &mut impl Write, answer: Stepped, output: &[u8]) -> io::Result<()> {
    print::number(out, " ", output.len() as u64)?;
    print::number(out, ": number ", answer.number)?;
    print::number(out, " place ", answer.place)?;
    let session = answer.session;
    print::number(out, " records ", session.records)?;
    print::number(out, " last ", session.last)?;
    print::number(out, " next ", session.next)?;
    let digest = sha256::finish(sha256::absorb(sha256::begin(), output));
    print::hex(out, " output ", &digest)?;
    writeln!(out)
}

// Takes the step at a position with all of `output` lent, prints its line unless the output only grows, and answers the session after it.
fn run_step(
    out: &mut impl Write,
    name: &[u8],
    at: usize,
    step: Step<'_>,
    session: Session,
    output: &mut [u8],
) -> io::Result<Session> {
    let answer = take(step, session, output);
    let kind = step.kind;
    if kind != GROW {
        out.write_all(name)?;
        print::number(out, " session ", at as u64)?;
        print_word(out, kind)?;
        print_answer(out, answer, output)?;
    }
    Ok(answer.session)
}

// Lends the step so much of the output as it asks for, or as the step before was lent. Bytes by which the output gets longer are zeros.
fn lend_step(
    out: &mut impl Write,
    name: &[u8],
    at: usize,
    step: Step<'_>,
    session: Session,
    places: u64,
    output: &mut [u8],
) -> io::Result<Session> {
    let more = room_from(step, places);
    let from = room(places, output);
    let to = room(more, output);
    clear_more(output, from, to);
    let lent = room(more, output);
    run_step(out, name, at, step, session, &mut output[..lent])
}

// Takes the steps one after the other.
fn run_all(out: &mut impl Write, stored: &[u8], name: &[u8], output: &mut [u8]) -> io::Result<()> {
    let mut session = Session::afresh();
    let mut places = 0;
    let mut rest = stored;
    while !rest.is_empty() {
        let at = stored.len() - rest.len();
        let Some((next, after)) = next_step(rest) else {
            return writeln!(out, "cut step at {at}");
        };
        session = lend_step(out, name, at, next, session, places, output)?;
        places = room_from(next, places);
        rest = after;
    }
    Ok(())
}

pub fn run(out: &mut impl Write, stored: &[u8], name: &[u8]) -> io::Result<()> {
    let mut output = [RUBBISH_BYTE; 65536];
    run_all(out, stored, name, &mut output)
}
