// The frequency sketch: how often a hash was seen of late, in a lent table of words that hold sixteen counters of four
// bits each. The table is lent, of any length; the sketch's own record goes in by value and comes back in the answer.
// No public call has a `requires`: what is not sound, too large or too short is refused, and then nothing has
// changed.
#![tactic(auto)]

mod calls;
pub mod counters; // one word as sixteen counters, and the aging of a table
mod index;
mod sound;
pub mod unchecked; // the work on a sound record

pub use crate::calls::{ensure_capacity, estimate, increase, unused};
pub use crate::index::word_index;
pub use numbers::refusals::Refusal;
pub use sketch_rules::Sketch;
