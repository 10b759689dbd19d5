// Lent lists of answers: the numbers put stand at the front, and zeros after them.
#![tactic(auto)]

ghost use Rattle.std.specs.Prelude.{◌≡◌, length};
ghost use Rattle.output_list.specs.OutputList.{zeros, has_place, with_number};

// Every place of the list becomes 0.
#[tactic(auto, using(crate::proofs::OutputListLaws::clearing))]
pub fn clear(list: &mut [u64])
    ensures { list.new ≡ zeros (length list.old) }
{
    list.fill(0);
}

// Stores a number after the `count` numbers at the front, where there is room; answers whether there was.
pub fn put(list: &mut [u64], count: usize, number: u64) -> bool
    ensures { (result ≡ has_place list.old count) × (list.new ≡ with_number list.old count number) }
{
    if list.len() <= count {
        return false;
    }
    list[count] = number;
    true
}
