// What a turn of a pull comes to, and where an advance goes from a bucket.
use crate::calls::{Clock, Event};

// The clock after a turn, and the pull's answer, or none where the pull goes on.
#[derive(Clone, Copy)]
pub struct Turn {
    pub clock: Clock,
    pub event: Option<Event>,
}

// In the bucket that is the step-th of the level.
#[derive(Clone, Copy)]
pub struct Position {
    pub level: usize,
    pub step: usize,
}
