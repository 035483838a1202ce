// The clock record, and what the wheel's public calls answer. A call that is refused answers `Err` of the refusal
// (numbers::refusals), and the caller's own clock still holds.

// The clock record. While an advance is open, reading is q and previous is p; `step` counts the buckets entered on
// `level` so far, and level 0 with step 0 stands before the first bucket.
#[repr(C)]
#[derive(Clone, Copy)]
pub struct Clock {
    pub enabled: bool,
    pub reading: u64,
    // the next serial
    pub serial: u64,
    pub open: bool,
    pub previous: u64,
    pub level: usize,
    pub step: usize,
    // the first free slot, or NONE
    pub free: usize,
    // the lengths at enabling
    pub nodes: usize,
    pub entries: usize,
}

// Create: the clock, and heads and tails with no slot in any bucket.
#[repr(C)]
#[derive(Clone, Copy)]
pub struct Created {
    pub clock: Clock,
    pub heads: [usize; 165],
    pub tails: [usize; 165],
}

// An answer, and the clock from now on.
#[derive(Clone, Copy)]
pub struct After<A> {
    pub clock: Clock,
    pub answer: A,
}

// Schedule: the handle of the timer armed.
#[derive(Clone, Copy, Debug, PartialEq, Eq)]
pub struct Handle {
    pub slot: usize,
    pub serial: u64,
}

// Reschedule: moved; or removed, since the entry has no deadline.
#[derive(Clone, Copy, Debug, PartialEq, Eq)]
pub enum Rescheduled {
    Moved,
    Removed,
}

// Pull: an event or End.
#[derive(Clone, Copy, Debug, PartialEq, Eq)]
pub enum Event {
    Expired {
        entry: usize,
        serial: u64,
        deadline: u64,
    },
    Rescheduled {
        entry: usize,
        serial: u64,
        place: u64,
    },
    End,
}
