// The face: the wheel's calls over lent nodes. Its promises, and the theorems about them. No code.
#![tactic(auto)]

// One slot: its links, its bucket (or none), and the timer armed there: entry, generation and serial.
#[repr(C)]
#[derive(Clone, Copy, Debug, Default, PartialEq, Eq)]
pub struct Node {
    pub next: usize,
    pub prev: usize,
    pub bucket: usize,
    pub entry: usize,
    pub generation: u32,
    pub serial: u64,
}
