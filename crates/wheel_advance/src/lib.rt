// The advance on records known to be sound, unchecked: for proved code only. A pull takes turns (enter a bucket, pop a
// node, go on) up to its answer, one event or End. All of it is made a part of the caller, which then holds the slices
// in registers.
#![tactic(auto)]

pub mod pop; // a node popped: freed, handed out or placed anew
pub mod position; // where the advance goes from a bucket
pub mod pull; // the turns up to the answer
pub mod skips; // buckets that hold their sentinel alone, passed over
pub mod turns; // one turn
