// The records of one wheel of 168 nodes and 2 entries, and the wheel's calls on them, each with the wheel's own promise.
ghost use Rattle.std.specs.Prelude.{true};
ghost use Rattle.std.proofs.Math.Option.{some};
ghost use Rattle.face_rules.specs.Face.{scheduled_says, pulled_says};
ghost use Rattle.rules.specs.Wheel.{create, enable, set_entry, schedule, deschedule, start, pull, abandon, armed_count, ok};
ghost use Rattle.story.specs.Held.{held};
ghost use Rattle.wheel_rules.specs.Promise.{noted_says, counted_says, Promised};

use face::{Clock, Event, Handle, Node, Refusal};

#[derive(Clone, Copy)]
pub struct Held {
    pub heads: [usize; 165],
    pub tails: [usize; 165],
    pub nodes: [Node; 168],
    pub dated: [bool; 2],
    pub deadline: [u64; 2],
    pub stamp: [u32; 2],
    pub clock: Clock,
}

const BLANK: Node = Node {
    next: 0,
    prev: 0,
    bucket: 0,
    entry: 0,
    generation: 0,
    serial: 0,
};

impl Held {
    // Begins a wheel with this first serial: the records are as a create leaves them.
    pub fn create(first: u64) -> Held
        ensures { Promised (create first) (held result) (held result) ok }
    {
        let made = face::create(first);
        let heads = made.heads;
        let tails = made.tails;
        let nodes = [BLANK; 168];
        let dated = [false; 2];
        let deadline = [0; 2];
        let stamp = [0; 2];
        Held {
            heads,
            tails,
            nodes,
            dated,
            deadline,
            stamp,
            clock: made.clock,
        }
    }

    pub fn enable(&mut self) -> Result<(), Refusal>
        ensures { Promised (enable 168 2 true) (held self.old) (held self.new) (noted_says result) }
    {
        face::enable(
            &mut self.nodes,
            &mut self.clock,
            &mut self.heads,
            &mut self.tails,
            &mut self.dated,
            &mut self.deadline,
            &mut self.stamp,
        )
    }

    // Sets the entry e to a deadline and a generation.
    pub fn set(&mut self, e: usize, due: u64, h: u32) -> Result<(), Refusal>
        ensures { Promised (set_entry e (some due) h) (held self.old) (held self.new) (noted_says result) }
    {
        face::set_entry(
            &self.nodes,
            self.clock,
            &self.heads,
            &self.tails,
            &mut self.dated,
            &mut self.deadline,
            &mut self.stamp,
            e,
            Some(due),
            h,
        )
    }

    // Arms a timer for the entry e.
    pub fn schedule(&mut self, e: usize, h: u32) -> Result<Handle, Refusal>
        ensures { Promised (schedule e h) (held self.old) (held self.new) (scheduled_says result) }
    {
        face::schedule(
            &mut self.nodes,
            &mut self.clock,
            &mut self.heads,
            &mut self.tails,
            &self.dated,
            &self.deadline,
            &self.stamp,
            e,
            h,
        )
    }

    // Cancels the timer with the handle.
    pub fn deschedule(&mut self, handle: Handle, h: u32) -> Result<(), Refusal>
        ensures { Promised (deschedule handle.slot handle.serial h) (held self.old) (held self.new) (noted_says result) }
    {
        face::deschedule(
            &mut self.nodes,
            &mut self.clock,
            &mut self.heads,
            &mut self.tails,
            &self.dated,
            &self.deadline,
            &self.stamp,
            handle,
            h,
        )
    }

    // Opens an advance to q.
    pub fn start(&mut self, q: u64) -> Result<(), Refusal>
        ensures { Promised (start q) (held self.old) (held self.new) (noted_says result) }
    {
        face::start(
            &self.nodes,
            &mut self.clock,
            &self.heads,
            &self.tails,
            &self.dated,
            &self.deadline,
            &self.stamp,
            q,
        )
    }

    // One event of the advance, or End.
    pub fn pull(&mut self) -> Result<Event, Refusal>
        ensures { Promised pull (held self.old) (held self.new) (pulled_says result) }
    {
        face::pull(
            &mut self.nodes,
            &mut self.clock,
            &mut self.heads,
            &mut self.tails,
            &self.dated,
            &self.deadline,
            &self.stamp,
        )
    }

    // Abandons the advance.
    pub fn abandon(&mut self) -> Result<(), Refusal>
        ensures { Promised abandon (held self.old) (held self.new) (noted_says result) }
    {
        face::abandon(
            &self.nodes,
            &mut self.clock,
            &self.heads,
            &self.tails,
            &self.dated,
            &self.deadline,
            &self.stamp,
        )
    }

    // How many timers are armed.
    pub fn armed_count(&self) -> Result<usize, Refusal>
        ensures { Promised armed_count (held self.now) (held self.now) (counted_says result) }
    {
        face::armed_count(
            &self.nodes,
            self.clock,
            &self.heads,
            &self.tails,
            &self.dated,
            &self.deadline,
            &self.stamp,
        )
    }
}
