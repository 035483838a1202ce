// The deque by itself: linked deques of 64-bit elements that share nodes, in parallel slices that the caller lends: 1
// to 256 deques (heads, tails, lens, cursors) over 1 to 4,096 nodes (next, prev, home, element), and the first free
// node, which goes in by value. The slices but the cursors are lent as one value, `Deques` for reading or `DequesMut`
// for changing, with the calls as its methods. Every public call answers for every input: what is refused is refused by
// number, and then every lent record is as found.
#![tactic(auto)]

pub mod asking; // look front, look back, length, next by cursor, reset cursor
pub mod freeing; // pop front, unlink and drop
pub mod layout; // lengths, cursors and elements at making
pub mod lending; // the lent records but the cursors, as one value
pub mod linking; // push back, move to back
pub mod looks; // front, back and the cursor, on sound records
pub mod making; // make
pub mod refuse; // which refusal applies
pub mod sound; // the soundness test
pub mod unchecked; // nodes linked and unlinked, on sound records

pub use crate::lending::{Deques, DequesMut};
pub use crate::linking::move_to_back;
pub use deque_rules::alone::{
    Done, Dropped, Freed, Looked, Made, Measured, Node, Placed, Popped, Pushed, Taken,
};
pub use numbers::slots::{NONE, PAST_END};
