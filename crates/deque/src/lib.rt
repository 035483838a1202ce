// Linked deques and the chain of free slots, in parallel slices: head and tail of each deque; next slot, previous slot
// and deque of each slot. For proved code only, unchecked: a caller shows that the records stand for lists, or tests it
// once with `sound`. Each function promises what it writes, and what that means for whatever lists the records stand
// for (crate deque_rules).
#![tactic(auto)]

pub mod change; // push, remove, move to the back, turn until a member is last
mod free; // take a free slot, give one back
pub mod linked; // the records lent together, for reading and for changing
pub mod layout; // all deques empty, all slots free
pub mod read; // the front of a deque, the slot after a slot
pub mod sound; // the test of links and free chain, which asks nothing
pub mod walk; // how many slots a deque and the free chain have, for tests

pub use numbers::slots::NONE;
