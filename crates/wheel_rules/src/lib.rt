// The wheel on records: definitions, laws, theorems over histories of calls, and the types. No code.
#![tactic(auto)]

pub mod calls; // the clock, and what the public calls answer
pub mod place; // a place
pub mod popping; // a turn of a pull, and where an advance goes from a bucket
