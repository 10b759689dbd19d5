// The refusals that come before the file is made.
ghost use Rattle.std.specs.Prelude.{◌≡◌};
ghost use Rattle.outcome.specs.Fault.{number, said_at};
ghost use Rattle.writer.specs.Write.{input_refusal, records_to_write};
ghost use Rattle.writer.specs.Steps.{tested};

use outcome::Fault;
use payload::records_at;

// The first of the refusals 30, 9, 28 and 29.
pub fn check_input(
    metadata: &[u8],
    records: &[u8],
    per_block: u64,
    per_index: u64,
) -> Result<(), Fault>
    ensures { said_at 0 result ≡ tested (records_to_write metadata.now records.now per_block per_index) }
{
    if !file_encoder::counts_fit(per_block, per_index) {
        return Err(Fault::Counts);
    }
    if !header::is_metadata(metadata) {
        return Err(Fault::Metadata);
    }
    match records_at(records, 0) {
        Ok(_) => Ok(()),
        Err(fault) => Err(input_fault(fault)),
    }
}

// The refusal of an input whose records are refused as those of a block: 29 where they don't rise, 28 for everything else.
fn input_fault(fault: Fault) -> Fault
    ensures { number result ≡ input_refusal (number fault) }
{
    match fault {
        Fault::RecordOrder => Fault::InputOrder,
        _ => Fault::Input,
    }
}
