// Putting the matching records of a file on a result list. The file's blocks have been tested before.
ghost use Rattle.std.specs.Prelude.{◌≡◌, ◌^◌, ◌≤◌, length};
ghost use Rattle.block.specs.Laid.{laid_from};
ghost use Rattle.block.specs.Survey.{records_of};
ghost use Rattle.query.specs.Asked.{asked};
ghost use Rattle.matching.specs.Matching.{matching};
ghost use Rattle.matching.specs.ResultList.{Stored, put_all};

use framing::frame_at;
use matching::collect_records;
use query::Query;

// Puts the matching records of the data blocks from an offset on; answers how many there are.
pub fn collect(file: &[u8], from: usize, query: Query<'_>, results: &mut [u64]) -> usize
    requires { length file.now ≤ 2 ^ 30 }
    ensures { ◌≡◌ {A = Stored} (record { count = result; list = results.new })
        (put_all (record { count = 0; list = results.old })
        (matching (asked query.entry) (records_of (laid_from file.now from)))) }
{
    let mut at = from;
    let mut found: usize = 0;
    while at < file.len() {
        let Ok(frame) = frame_at(file, at) else {
            return found;
        };
        at += frame.size;
        if frame.level == 0 {
            found = collect_records(&file[..frame.end], frame.body + 1, query, results, found);
        }
    }
    found
}
