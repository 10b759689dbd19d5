// Parts of what the check and the search do, exported for C: bench/ holds their times against the times of these.
#![tactic(auto)]

ghost use Rattle.std.specs.Prelude.{◌≡◌};
ghost use Rattle.outcome.specs.Outcome.{number_of};
ghost use Rattle.crc64.specs.Crc64.{crc64};
ghost use Rattle.payload.specs.Payload.{records_at, entries_at};
ghost use Rattle.outcome.specs.Fault.{said_at};
ghost use Rattle.query.specs.Query.{query_of};
ghost use Rattle.matching.specs.ResultList.{Stored, put_all};
ghost use Rattle.bench_exports.specs.Digest.{digest_start};
ghost use Rattle.bench_exports.specs.Matches.{matches_in};

use outcome::Fault;
use query::Query;

const LONGEST: usize = 1073741824;

// The CRC of the bytes.
#[unsafe(no_mangle)]
pub extern "C" fn bench_crc64(bytes: &[u8]) -> u64
    ensures { result ≡ crc64 bytes.now }
{
    crc64::checksum(bytes)
}

// The same, eight one-bit steps for each byte at any length.
#[unsafe(no_mangle)]
pub extern "C" fn bench_crc64_by_bits(bytes: &[u8]) -> u64
    ensures { result ≡ crc64 bytes.now }
{
    crc64::finish(crc64_register::absorb_by_bits(crc64::begin(), bytes))
}

// The first eight bytes of the SHA-256 of the bytes, as a little-endian number; 0 for more than 2^30 bytes.
#[unsafe(no_mangle)]
pub extern "C" fn bench_sha256(bytes: &[u8]) -> u64
    ensures { result ≡ digest_start bytes.now }
{
    if LONGEST < bytes.len() {
        return 0;
    }
    let begun = sha256::begin();
    let state = sha256::absorb(begun, bytes);
    let digest = sha256::finish(state);
    endian::le64_at(&digest, 0)
}

// The number of a payload's fault, or 0.
fn fault_number(read: Result<usize, Fault>) -> u64
    ensures { result ≡ number_of (said_at 0 read) }
{
    match read {
        Ok(_) => 0,
        Err(fault) => fault.number(),
    }
}

// The tests of a data block's payload: the number of the refusal, or 0.
#[unsafe(no_mangle)]
pub extern "C" fn bench_records(bytes: &[u8]) -> u64
    ensures { result ≡ number_of (records_at 0 bytes.now 0) }
{
    fault_number(payload::records_at(bytes, 0))
}

// The tests of an index block's payload: the number of the refusal, or 0.
#[unsafe(no_mangle)]
pub extern "C" fn bench_entries(bytes: &[u8]) -> u64
    ensures { result ≡ number_of (entries_at 0 bytes.now 0) }
{
    fault_number(payload::entries_at(bytes, 0))
}

// How many records of a data block's payload match; those for which the list has room are put on it. None for more than 2^30 bytes.
#[unsafe(no_mangle)]
pub extern "C" fn bench_matches(
    bytes: &[u8],
    start: &[u8],
    stop_given: bool,
    stop: &[u8],
    prefix: &[u8],
    results: &mut [u64],
) -> u64
    ensures { ◌≡◌ {A = Stored} (record { count = result; list = results.new })
        (put_all (record { count = 0; list = results.old })
        (matches_in (query_of start.now stop_given stop.now prefix.now) bytes.now)) }
{
    if bytes.len() > LONGEST {
        return 0;
    }
    let query = Query::new(start, stop_given, stop, prefix);
    matching::collect_records(bytes, 0, query, results, 0) as u64
}
