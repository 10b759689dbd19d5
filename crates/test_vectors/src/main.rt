// Runs the stored vectors of CRC-64, SHA-256 and uleb128 and prints what the proved code gives. The file `stdout` beside
// src/ has the values they must give: published ones, and eight CRCs made with liblzma (docs/DECISIONS.md).
#![tactic(auto)]

use std::io;
use std::io::{BufWriter, Write};
use uleb128::NumberFault;

fn main(rt: HostRuntime) -> io::Result<()> {
    let mut out = BufWriter::new(rt.alloc(), io::writer(&rt))?;
    checksums(&mut out)?;
    hashes(&mut out)?;
    numbers(&mut out)?;
    out.flush()
}

fn hex_bytes(out: &mut impl Write, bytes: &[u8]) -> io::Result<()> {
    for b in bytes {
        write!(out, "{b:02x}")?;
    }
    Ok(())
}

// CRC-64: the check value of the format's document, and values of liblzma.
fn checksums(out: &mut impl Write) -> io::Result<()> {
    crc_line(out, "123456789", b"123456789")?;
    crc_line(out, "nothing", b"")?;
    crc_line(out, "00", b"\x00")?;
    crc_line(out, "8 x ff", b"\xff\xff\xff\xff\xff\xff\xff\xff")?;
    crc_line(out, "a", b"a")?;
    let many = [b'a'; 513];
    crc_line(out, "511 x a", &many[..511])?;
    crc_line(out, "512 x a", &many[..512])?;
    crc_line(out, "513 x a", &many)?;
    let buffer = [b'a'; 65536];
    crc_line(out, "65536 x a", &buffer)
}

fn crc_line(out: &mut impl Write, name: &str, bytes: &[u8]) -> io::Result<()> {
    writeln!(out, "crc64 {name}: {:016x}", crc64::checksum(bytes))
}

// SHA-256: the examples of NIST.
fn hashes(out: &mut impl Write) -> io::Result<()> {
    let zeros = [0u8; 1000];
    hash_line(out, "nothing", b"")?;
    hash_line(out, "abc", b"abc")?;
    hash_line(
        out,
        "two blocks",
        b"abcdbcdecdefdefgefghfghighijhijkijkljklmklmnlmnomnopnopq",
    )?;
    hash_line(out, "bd", b"\xbd")?;
    hash_line(out, "c98c8e55", b"\xc9\x8c\x8e\x55")?;
    hash_line(out, "55 zeros", &zeros[..55])?;
    hash_line(out, "56 zeros", &zeros[..56])?;
    hash_line(out, "57 zeros", &zeros[..57])?;
    hash_line(out, "64 zeros", &zeros[..64])?;
    hash_line(out, "1000 zeros", &zeros)?;
    let buffer = [b'a'; 65536];
    digest_line(out, "1000000 x a", in_pieces(&buffer, 1000000))
}

fn hash_line(out: &mut impl Write, name: &str, bytes: &[u8]) -> io::Result<()> {
    digest_line(
        out,
        name,
        sha256::finish(sha256::absorb(sha256::begin(), bytes)),
    )
}

fn digest_line(out: &mut impl Write, name: &str, digest: [u8; 32]) -> io::Result<()> {
    write!(out, "sha256 {name}: ")?;
    hex_bytes(out, &digest)?;
    writeln!(out)
}

// The digest of `total` bytes, taken from the front of the buffer in pieces of uneven sizes.
fn in_pieces(buffer: &[u8], total: usize) -> [u8; 32] {
    let mut state = sha256::begin();
    let mut left = total;
    let mut size: usize = 1;
    while 0 < left {
        let n = size.min(left).min(buffer.len());
        if n == 0 {
            break;
        }
        state = sha256::absorb(state, &buffer[..n]);
        left -= n;
        size = size * 5 % 65521 + 1;
    }
    sha256::finish(state)
}

// uleb128: the examples of the format's document and those of its limits, valid and refused.
fn numbers(out: &mut impl Write) -> io::Result<()> {
    number_line(out, b"\x00")?;
    number_line(out, b"\x7f")?;
    number_line(out, b"\x80\x01")?;
    number_line(out, b"\xff\x20")?;
    number_line(out, b"\x80\x80\x80\x80\x20")?;
    number_line(out, b"\xff\xff\xff\xff\xff\xff\xff\xff\x7f")?;
    number_line(out, b"\x80\x00")?;
    number_line(out, b"\xff\xff\xff\xff\xff\xff\xff\xff\xff")?;
    number_line(out, b"\xff\xff\xff\xff\xff\xff\xff\xff")?;
    number_line(out, b"\x80")?;
    number_line(out, b"")
}

fn number_line(out: &mut impl Write, bytes: &[u8]) -> io::Result<()> {
    write!(out, "uleb128 ")?;
    hex_bytes(out, bytes)?;
    match uleb128::read_number(bytes) {
        Ok(number) => writeln!(out, ": value {}, bytes {}", number.value, number.used),
        Err(NumberFault::CutOff) => writeln!(out, ": cut off"),
        Err(NumberFault::TooWide) => writeln!(out, ": refused 11"),
        Err(NumberFault::NotShortest) => writeln!(out, ": refused 12"),
    }
}
