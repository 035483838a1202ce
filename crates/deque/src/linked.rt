// The records of linked deques and free slots, lent together: head and tail of each deque; next slot, previous slot and
// deque of each slot.
// Parallel slices, and a link is a slot's number or NONE: a rule of the project, 01's forms.
ghost use Rattle.deque.specs.Slices.{Reads};

// Lent for reading.
#[derive(Clone, Copy)]
pub struct Linked<'a> {
    pub heads: &'a [usize],
    pub tails: &'a [usize],
    pub next: &'a [usize],
    pub prev: &'a [usize],
    pub home: &'a [usize],
}

// Lent for changing.
#[derive(Drop)]
pub struct LinkedMut<'a> {
    pub heads: &'a mut [usize],
    pub tails: &'a mut [usize],
    pub next: &'a mut [usize],
    pub prev: &'a mut [usize],
    pub home: &'a mut [usize],
}

impl LinkedMut<'_> {
    // The same records, for reading.
    #[inline(always)]
    pub fn as_read(&self) -> Linked<'_>
        ensures { Reads self.now result }
    {
        Linked {
            heads: self.heads,
            tails: self.tails,
            next: self.next,
            prev: self.prev,
            home: self.home,
        }
    }
}
