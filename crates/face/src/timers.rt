// Schedule, reschedule and deschedule over lent nodes. No `requires`. A refused call leaves every record as found.
ghost use Rattle.face_rules.specs.Face.{scheduled_says, rescheduled_says, records_of};
ghost use Rattle.rules.specs.Wheel.{schedule, reschedule, deschedule};
ghost use Rattle.wheel_rules.specs.Promise.{noted_says, Promised};

use crate::writing::write_nodes;
use face_rules::Node;
use face_works::writing::{Deschedule, Reschedule, Schedule};
use numbers::refusals::Refusal;
use wheel::Entries;
use wheel_rules::calls::{Clock, Handle, Rescheduled};

// Arms a timer for the entry e, whose generation is h. Refuses (1, 4, 5, 7 to 11).
pub fn schedule(
    nodes: &mut [Node],
    clock: &mut Clock,
    heads: &mut [usize],
    tails: &mut [usize],
    dated: &[bool],
    deadline: &[u64],
    stamp: &[u32],
    e: usize,
    h: u32,
) -> Result<Handle, Refusal>
    ensures { Promised (schedule e h)
        (records_of heads.old tails.old nodes.old dated.now deadline.now stamp.now clock.old)
        (records_of heads.new tails.new nodes.new dated.now deadline.now stamp.now clock.new) (scheduled_says result) }
{
    let entries = Entries {
        dated,
        deadline,
        generation: stamp,
    };
    write_nodes(nodes, clock, heads, tails, entries, Schedule { e, h })
}

// Moves the timer with the handle, armed with the generation h, or removes it. Refuses (1, 4, 5, 12, 13).
pub fn reschedule(
    nodes: &mut [Node],
    clock: &mut Clock,
    heads: &mut [usize],
    tails: &mut [usize],
    dated: &[bool],
    deadline: &[u64],
    stamp: &[u32],
    handle: Handle,
    h: u32,
) -> Result<Rescheduled, Refusal>
    ensures { Promised (reschedule handle.slot handle.serial h)
        (records_of heads.old tails.old nodes.old dated.now deadline.now stamp.now clock.old)
        (records_of heads.new tails.new nodes.new dated.now deadline.now stamp.now clock.new)
        (rescheduled_says result) }
{
    let entries = Entries {
        dated,
        deadline,
        generation: stamp,
    };
    write_nodes(
        nodes,
        clock,
        heads,
        tails,
        entries,
        Reschedule { handle, h },
    )
}

// Removes the timer with the handle, armed with the generation h. Refuses (1, 4, 5, 12, 13).
pub fn deschedule(
    nodes: &mut [Node],
    clock: &mut Clock,
    heads: &mut [usize],
    tails: &mut [usize],
    dated: &[bool],
    deadline: &[u64],
    stamp: &[u32],
    handle: Handle,
    h: u32,
) -> Result<(), Refusal>
    ensures { Promised (deschedule handle.slot handle.serial h)
        (records_of heads.old tails.old nodes.old dated.now deadline.now stamp.now clock.old)
        (records_of heads.new tails.new nodes.new dated.now deadline.now stamp.now clock.new) (noted_says result) }
{
    let entries = Entries {
        dated,
        deadline,
        generation: stamp,
    };
    write_nodes(
        nodes,
        clock,
        heads,
        tails,
        entries,
        Deschedule { handle, h },
    )
}
