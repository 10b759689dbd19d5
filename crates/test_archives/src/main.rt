// Runs the stored cases: for each case of the files `cases`, `more-cases`, `write-cases`, `import-cases`, `session-cases` and `compare-cases` a
// call on the file or the two files that it names, and a line with the answer; for a session a line with the answer of each step.
#![tactic(auto)]

ghost use Rattle.std.specs.Prelude.{IfOk, IfSome, length, take, ◌≡◌, ◌≤◌};

mod cases;
mod check;
mod compare_pair;
mod import_sim;
mod index_search;
mod lent;
mod print;
mod read;
mod record_part;
mod session_steps;
mod shown_part;
mod steps;
mod store_part;
mod write;

use cases::{Case, next_case};
use std::fs::File;
use std::io;
use std::io::{BufWriter, Read, Write};
use std::rt::Files;

// The most that is read of a file.
const MOST: usize = 65536;

// Reads a file; answers how many bytes of `space` it fills. A longer file would be cut, and the corpus has none.
fn fill(file: &mut impl Read, space: &mut [u8]) -> io::Result<usize>
    ensures in_bounds { IfOk result (λ n. n ≤ length space.new) }
    ensures prefix_len { IfOk result (λ n. n ≡ length (take n space.new)) }
{
    let mut n = 0;
    while n < space.len() {
        let more = file.read(&mut space[n..])?;
        if more == 0 {
            break;
        }
        n += more;
    }
    Ok(n)
}

// Opens a file and reads it into `space`, or says why it can't be opened; answers how many bytes that were.
fn contents(
    rt: &(impl Files + Alloc + Eprint),
    path: &[u8],
    space: &mut [u8],
) -> io::Result<Option<usize>>
    ensures in_bounds { IfOk result (λ read. IfSome read (λ n. n ≤ length space.new)) }
{
    let name = String::from_utf8_lossy(rt.alloc(), path)?;
    match File::open(rt, name.as_str()) {
        Ok(file) => {
            let mut open = file;
            let n = fill(&mut open, space)?;
            Ok(Some(n))
        },
        Err(error) => {
            eprintln!(rt; "{name}: {error}")?;
            Ok(None)
        },
    }
}

// Opens the second file of a case, or says why it can't, and makes the call on the bytes of both.
fn answer_pair(
    rt: &(impl Files + Alloc + Eprint),
    out: &mut impl Write,
    first: &[u8],
    case: Case<'_>,
) -> io::Result<()> {
    let name = case.query.start;
    let mut space = [0u8; MOST];
    let Some(n) = contents(rt, name, &mut space)? else {
        return Ok(());
    };
    if case.call == 8 {
        compare_pair::run(out, first, &space[..n], name, case)
    } else {
        shown_part::run(out, first, &space[..n], name, case)
    }
}

// Makes the call of a case on the bytes of its file, and prints the line.
fn answer(
    rt: &(impl Files + Alloc + Eprint),
    out: &mut impl Write,
    file: &[u8],
    case: Case<'_>,
) -> io::Result<()> {
    out.write_all(case.name)?;
    match case.call {
        1 => read::run(out, file, case)?,
        2 => check::run(out, file, case)?,
        3 => index_search::run(out, file, case)?,
        4 => record_part::run(out, file, case)?,
        5 => write::run(out, file, case)?,
        6 => import_sim::run(out, file, case)?,
        7 => store_part::run(out, file, case)?,
        8 | 9 => answer_pair(rt, out, file, case)?,
        call => print::number(out, " unknown call ", call as u64)?,
    }
    writeln!(out)
}

// Makes the call of a case on the bytes of its file. A session prints its own lines.
fn answer_any(
    rt: &(impl Files + Alloc + Eprint),
    out: &mut impl Write,
    file: &[u8],
    case: Case<'_>,
) -> io::Result<()> {
    if case.call == 10 {
        session_steps::run(out, file, case.name)
    } else {
        answer(rt, out, file, case)
    }
}

// Opens the file of a case, or says why it can't, and makes the call on its bytes.
fn run_case(
    rt: &(impl Files + Alloc + Eprint),
    out: &mut impl Write,
    case: Case<'_>,
) -> io::Result<()> {
    let mut space = [0u8; MOST];
    match contents(rt, case.name, &mut space)? {
        Some(n) => answer_any(rt, out, &space[..n], case),
        None => Ok(()),
    }
}

// Runs the cases one after the other.
fn run_all(
    rt: &(impl Files + Alloc + Eprint),
    out: &mut impl Write,
    stored: &[u8],
) -> io::Result<()> {
    let mut rest = stored;
    while !rest.is_empty() {
        let Some((next, after)) = next_case(rest) else {
            let at = stored.len() - rest.len();
            return writeln!(out, "cut case at {at}");
        };
        run_case(rt, out, next)?;
        rest = after;
    }
    Ok(())
}

// Runs the cases of a file, or says why it can't be opened.
fn run_file(
    rt: &(impl Files + Alloc + Eprint),
    out: &mut impl Write,
    path: &str,
) -> io::Result<()> {
    let mut space = [0u8; MOST];
    match contents(rt, path.as_bytes(), &mut space)? {
        Some(n) => run_all(rt, out, &space[..n]),
        None => Ok(()),
    }
}

fn main(rt: HostRuntime) -> io::Result<()> {
    let mut out = BufWriter::new(rt.alloc(), io::writer(&rt))?;
    run_file(&rt, &mut out, "cases")?;
    run_file(&rt, &mut out, "more-cases")?;
    run_file(&rt, &mut out, "write-cases")?;
    run_file(&rt, &mut out, "import-cases")?;
    run_file(&rt, &mut out, "session-cases")?;
    run_file(&rt, &mut out, "compare-cases")?;
    out.flush()
}
