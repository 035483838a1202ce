// What the calls of the deque by itself answer: each a result, or why it was refused.
use numbers::refusals::Refusal;

// A node with its element.
#[derive(Clone, Copy, Debug, PartialEq, Eq)]
pub struct Node {
    pub slot: usize,
    pub element: u64,
}

// A node that an element was put in, and the first free node then.
#[derive(Clone, Copy, Debug, PartialEq, Eq)]
pub struct Placed {
    pub slot: usize,
    pub free: usize,
}

// A node that was taken out with its element, and the first free node then.
#[derive(Clone, Copy, Debug, PartialEq, Eq)]
pub struct Taken {
    pub slot: usize,
    pub element: u64,
    pub free: usize,
}

// The element of a node that was freed, and the first free node then.
#[derive(Clone, Copy, Debug, PartialEq, Eq)]
pub struct Freed {
    pub element: u64,
    pub free: usize,
}

// Make: the first free node.
pub type Made = Result<usize, Refusal>;

// Push back.
pub type Pushed = Result<Placed, Refusal>;

// Pop front, on a deque that may be empty.
pub type Popped = Result<Option<Taken>, Refusal>;

// Look at the front or the back, next by cursor: where there is a node.
pub type Looked = Result<Option<Node>, Refusal>;

// Unlink and drop.
pub type Dropped = Result<Freed, Refusal>;

// Length.
pub type Measured = Result<usize, Refusal>;

// Move to back, reset cursor.
pub type Done = Result<(), Refusal>;
