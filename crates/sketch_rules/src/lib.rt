// The frequency sketch: definitions, laws, and the types of its record. No code. A call answers the record from now on,
// or a number, or why it is refused.
#![tactic(auto)]

// The sketch's record: how many words of the lent table are in use (0: none yet), at which size count the table is
// aged, and the size count, which rises with each increase that raised a counter. Three numbers and no Option for none
// in use: the soundness that 01 states, and its promises, speak of any three (project rule: 01's records).
#[derive(Clone, Copy, Debug, PartialEq, Eq)]
pub struct Sketch {
    pub used: usize,
    pub sample: u64,
    pub size: u64,
}

// What an increase did: how many of the four counters rose, whether the table was aged, and the record from now on.
#[derive(Clone, Copy, Debug, PartialEq, Eq)]
pub struct Counted {
    pub rose: u64,
    pub aged: bool,
    pub sketch: Sketch,
}
