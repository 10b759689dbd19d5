// The records of a dump, put in their order.
ghost use Rattle.std.specs.Prelude.{◌≡◌, map, ◌+◌, ◌≤◌, length};
ghost use Rattle.output_bytes.specs.OutputBytes.{stored};
ghost use Rattle.layout.specs.Blocks.{text_bytes, records_bytes};
ghost use Rattle.sorting.specs.Sorting.{sorted};
ghost use Rattle.slots.specs.Slots.{slots};
ghost use Rattle.sim.specs.Adn.{record_of, record_at};
ghost use Rattle.sim_import.specs.Import.{occupied};
ghost use Rattle.sim_import.specs.Steps.{offsets, Ready, Exact};

use sim::Dump;

// Stores the offsets of the records that aren't free into slots, of which there is one for each.
fn put_offsets(dump: Dump, s: &mut [u8])
    requires { length (slots 8 s.old) ≡ length (occupied dump.name_length dump.bytes.now) }
    ensures { map (record_at dump.entry.name_length dump.entry.bytes.now) (slots 8 s.new)
        ≡ map (record_of dump.entry.name_length) (occupied dump.entry.name_length dump.entry.bytes.now) }
{
    let mut k: usize = 0;
    for at in (0..dump.bytes.len()).step_by(dump.width()) {
        if !dump.record(at as u64).is_free() {
            slots::store(s, k, at as u64);
            k += 1;
        }
    }
}

// Puts our record of the one at an offset of the dump; answers how many bytes it takes.
fn put_record(dump: Dump, from: u64, output: &mut [u8], at: usize) -> usize
    requires { at + length (text_bytes (record_at dump.name_length dump.bytes.now from)) ≤ length output.old }
    ensures { (result ≡ length (text_bytes (record_at dump.entry.name_length dump.entry.bytes.now from)))
        × (output.new ≡ stored output.old at (text_bytes (record_at dump.entry.name_length dump.entry.bytes.now from))) }
{
    let adn = dump.record(from);
    let name = adn.name();
    let size = name.len() + adn.rest.len();
    let number = encoder::put_number(output, at, size as u64);
    output_bytes::put(output, at + number, name);
    output_bytes::put(output, at + number + name.len(), adn.rest);
    number + size
}

// Puts our records of those whose offsets stand in the last `count` slots of the output, over the slots.
fn put_records(dump: Dump, output: &mut [u8], count: usize)
    requires { Ready dump.name_length dump.bytes.now count output.old }
    ensures { output.new ≡ records_bytes (map (record_at dump.entry.name_length dump.entry.bytes.now) (offsets count output.old)) }
{
    let base = output.len() - slots::WIDTH * count;
    let mut used: usize = 0;
    for k in 0..count {
        let from = endian::le64_at(output, base + slots::WIDTH * k);
        used += put_record(dump, from, output, used);
    }
}

// Stores the offsets of the records that aren't free into slots, of which there is one for each, in the order of our records.
fn put_order(dump: Dump, s: &mut [u8])
    requires { length (slots 8 s.old) ≡ length (occupied dump.name_length dump.bytes.now) }
    ensures { map (record_at dump.entry.name_length dump.entry.bytes.now) (slots 8 s.new)
        ≡ sorted (map (record_of dump.entry.name_length) (occupied dump.entry.name_length dump.entry.bytes.now)) }
{
    put_offsets(dump, s);
    heapsort::sort(dump, s);
}

// Fills an output, which is as long as our records of the `count` that aren't free, with them in their order.
pub fn put_sorted(dump: Dump, output: &mut [u8], count: usize)
    requires { Exact dump.name_length dump.bytes.now count output.old }
    ensures { output.new ≡ records_bytes (sorted (map (record_of dump.entry.name_length) (occupied dump.entry.name_length dump.entry.bytes.now))) }
{
    let base = output.len() - slots::WIDTH * count;
    put_order(dump, &mut output[base..]);
    put_records(dump, output, count);
}
