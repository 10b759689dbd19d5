// Lent outputs of bytes: clearing, and storing byte strings at an offset, where they fit.
#![tactic(auto)]

ghost use Rattle.std.specs.Prelude.{◌≡◌, length};
ghost use Rattle.output_list.specs.OutputList.{zeros};
ghost use Rattle.output_bytes.specs.OutputBytes.{bytes_fit, stored, copies, copied};

use part::Part;

// Every byte of the output becomes 0.
#[tactic(auto, using(output_list::proofs::OutputListLaws::clearing))]
pub fn clear(output: &mut [u8])
    ensures { output.new ≡ zeros (length output.old) }
{
    output.fill(0);
}

// Stores the bytes from `at` on, where they fit; answers whether they did.
pub fn put(output: &mut [u8], at: usize, bytes: &[u8]) -> bool
    ensures { (result ≡ bytes_fit output.old at bytes.now) × (output.new ≡ stored output.old at bytes.now) }
{
    if output.len() < at || output.len() - at < bytes.len() {
        return false;
    }
    for i in 0..bytes.len() {
        output[at + i] = bytes[i];
    }
    true
}

// Stores a copy of a part of the output from `at` on, where the part doesn't begin after it and the copy fits; answers whether it did. The two
// may overlap: the last byte goes first. A part that is there already costs nothing.
pub fn copy(output: &mut [u8], source: Part, at: usize) -> bool
    ensures { (result ≡ copies output.old source.offset source.length at)
        × (output.new ≡ copied output.old source.offset source.length at) }
{
    if at < source.offset || output.len() < at {
        return false;
    }
    if at == source.offset {
        return true;
    }
    if output.len() - at < source.length {
        return false;
    }
    for left in (0..source.length).rev() {
        output[at + left] = output[source.offset + left];
    }
    true
}
