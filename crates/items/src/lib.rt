// Items that follow one another in a byte string: records or entries in a payload, blocks in a file. The definitions are in specs/, their laws
// in proofs/.
#![tactic(auto)]

// An item, and where the next one begins.
#[derive(Clone, Copy)]
pub struct Step<T> {
    pub item: T,
    pub next: usize,
}
