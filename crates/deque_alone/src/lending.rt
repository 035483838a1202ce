// The records of deques, lent together: the links, the length of each deque and the element of each node. The cursors
// are lent beside them, since a cursor also moves where nothing else changes.
ghost use Rattle.deque_alone.specs.Slices.{ReadsDeques};

use deque::linked::{Linked, LinkedMut};

// Lent for reading.
#[derive(Clone, Copy)]
pub struct Deques<'a> {
    pub links: Linked<'a>,
    pub lens: &'a [usize],
    pub element: &'a [u64],
}

// Lent for changing.
#[derive(Drop)]
pub struct DequesMut<'a> {
    pub links: LinkedMut<'a>,
    pub lens: &'a mut [usize],
    pub element: &'a mut [u64],
}

impl DequesMut<'_> {
    // The same records, for reading.
    pub fn as_read(&self) -> Deques<'_>
        ensures { ReadsDeques self.now result }
    {
        Deques {
            links: self.links.as_read(),
            lens: self.lens,
            element: self.element,
        }
    }
}
