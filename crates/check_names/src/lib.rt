// 18, 19 and 20: the work list has a place for each ordinary block, every entry names a fitting block, and every block but the root is
// named once.
//
// The work list holds a word for each ordinary block, in file order: its start, and 2^30 times how many entries name it (0, 1, or 2 for
// more).
#![tactic(auto)]

ghost use Rattle.std.specs.Prelude.{◌≡◌, length};
ghost use Rattle.output_list.specs.OutputList.{zeros};
ghost use Rattle.outcome.specs.Fault.{said};
ghost use Rattle.check_names.specs.Names.{names_of};

use crate::names::naming;
use outcome::Refusal;
use output_list::clear;

mod names;
mod starts;

// Tests the blocks from an offset on as they lie in the file, for the header's root. The work list holds zeros afterwards.
pub fn check_names(file: &[u8], from: usize, root: u64, work: &mut [u64]) -> Result<(), Refusal>
    ensures result_value { said result ≡ names_of file.now from root (length work.old) }
    ensures work_after { work.new ≡ zeros (length work.old) }
{
    let named = naming(file, from, root, work);
    clear(work);
    named
}
