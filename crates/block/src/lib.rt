// Blocks: a whole block at an offset, and the pass over all blocks of a file.
#![tactic(auto)]

pub mod pass;

use framing::Frame;

// What the tests of one block report: its frame, and how many records it has.
#[derive(Clone, Copy)]
pub struct Tallied {
    pub frame: Frame,
    pub records: usize,
}

// What the pass over all blocks reports: how many ordinary blocks and records there are, and whether the header's root is an index block.
#[derive(Clone, Copy)]
pub struct Survey {
    pub blocks: usize,
    pub records: usize,
    pub root: bool,
}
