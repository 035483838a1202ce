// Pokes: a field of a lent record, or of the clock, is written, if there is such a record.
use crate::answers::Answer;
use crate::records::Wheel;
use crate::requests::{BucketField, ClockField, NodeField, Poke};

impl Wheel<'_> {
    pub fn poke(&mut self, poke: Poke) -> Answer {
        match poke {
            Poke::Node(slot, field) => self.poke_node(slot, field),
            Poke::Bucket(bucket, field) => self.poke_bucket(bucket, field),
            Poke::Clock(field) => self.poke_clock(field),
        }
    }

    // `poke-node S FIELD V`.
    fn poke_node(&mut self, slot: usize, field: NodeField) -> Answer {
        let nodes = &mut self.nodes;
        match field {
            NodeField::Next(x) => put(nodes.linked.next, slot, x),
            NodeField::Prev(x) => put(nodes.linked.prev, slot, x),
            NodeField::Bucket(b) => put(nodes.linked.home, slot, b),
            NodeField::Entry(e) => put(nodes.entry, slot, e),
            NodeField::Generation(h) => put(nodes.generation, slot, h),
            NodeField::Serial(n) => put(nodes.serial, slot, n),
        }
    }

    // `poke-bucket B FIELD V`.
    fn poke_bucket(&mut self, bucket: usize, field: BucketField) -> Answer {
        match field {
            BucketField::Head(x) => put(self.nodes.linked.heads, bucket, x),
            BucketField::Tail(x) => put(self.nodes.linked.tails, bucket, x),
        }
    }

    // `poke-clock FIELD V`.
    fn poke_clock(&mut self, field: ClockField) -> Answer {
        match field {
            ClockField::Enabled(on) => self.clock.enabled = on,
            ClockField::Reading(time) => self.clock.reading = time,
            ClockField::Serial(n) => self.clock.serial = n,
            ClockField::Open(on) => self.clock.open = on,
            ClockField::Previous(time) => self.clock.previous = time,
            ClockField::Level(level) => self.clock.level = level,
            ClockField::Step(step) => self.clock.step = step,
            ClockField::Nodes(n) => self.clock.nodes = n,
            ClockField::Entries(n) => self.clock.entries = n,
            ClockField::Free(x) => self.clock.free = x,
        }
        Answer::Done
    }
}

// Writes the value at i, where there is such a place.
pub fn put<T: Drop>(column: &mut [T], i: usize, value: T) -> Answer {
    if column.len() <= i {
        return Answer::BadLine;
    }
    column[i] = value;
    Answer::Done
}
