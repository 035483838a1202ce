// The lent records of a wheel in parallel slices, for reading or to be changed: the slots with the heads and tails of
// the buckets, and the entries. The clock goes beside them, by value.
ghost use Rattle.wheel_timers.specs.Slices.{ReadsNodes, ReadsEntries};

use deque::linked::{Linked, LinkedMut};

// The slots: their links, whose `home` is the slot's bucket, and their payload.
#[derive(Clone, Copy)]
pub struct Nodes<'a> {
    pub linked: Linked<'a>,
    pub entry: &'a [usize],
    pub generation: &'a [u32],
    pub serial: &'a [u64],
}

// The same, to be changed.
#[derive(Drop)]
pub struct NodesMut<'a> {
    pub linked: LinkedMut<'a>,
    pub entry: &'a mut [usize],
    pub generation: &'a mut [u32],
    pub serial: &'a mut [u64],
}

impl NodesMut<'_> {
    #[inline(always)]
    pub fn as_read(&self) -> Nodes<'_>
        ensures { ReadsNodes self.now result }
    {
        Nodes {
            linked: self.linked.as_read(),
            entry: self.entry,
            generation: self.generation,
            serial: self.serial,
        }
    }
}

// The entries: whether each has a deadline, which, and its generation.
#[derive(Clone, Copy)]
pub struct Entries<'a> {
    pub dated: &'a [bool],
    pub deadline: &'a [u64],
    pub generation: &'a [u32],
}

// The same, to be changed.
#[derive(Drop)]
pub struct EntriesMut<'a> {
    pub dated: &'a mut [bool],
    pub deadline: &'a mut [u64],
    pub generation: &'a mut [u32],
}

impl EntriesMut<'_> {
    #[inline(always)]
    pub fn as_read(&self) -> Entries<'_>
        ensures { ReadsEntries self.now result }
    {
        Entries {
            dated: self.dated,
            deadline: self.deadline,
            generation: self.generation,
        }
    }
}
