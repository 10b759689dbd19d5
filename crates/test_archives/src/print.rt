// Printing: to standard output, through the writer over it that `main` makes.
use query::Query;
use std::io;
use std::io::Write;

// A number after a label.
pub fn number(out: &mut impl Write, label: &str, n: u64) -> io::Result<()> {
    write!(out, "{label}{n}")
}

// The numbers of a list after a label, a space in front of each.
pub fn list(out: &mut impl Write, label: &str, numbers: &[u64]) -> io::Result<()> {
    write!(out, "{label}")?;
    for n in numbers {
        write!(out, " {n}")?;
    }
    Ok(())
}

// Bytes in hex after a label, `-` for none.
pub fn hex(out: &mut impl Write, label: &str, bytes: &[u8]) -> io::Result<()> {
    write!(out, "{label}")?;
    if bytes.is_empty() {
        return write!(out, "-");
    }
    for b in bytes {
        write!(out, "{b:02x}")?;
    }
    Ok(())
}

// Start, stop and prefix of a query, each after a space: `-` for a stop that isn't given, `empty` for an empty one.
pub fn query(out: &mut impl Write, query: Query<'_>) -> io::Result<()> {
    hex(out, " ", query.start)?;
    match query.stop {
        None => write!(out, " -")?,
        Some(stop) => {
            if stop.is_empty() {
                write!(out, " empty")?;
            } else {
                hex(out, " ", stop)?;
            }
        },
    }
    hex(out, " ", query.prefix)
}
