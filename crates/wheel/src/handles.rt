// The calls with a handle, reschedule and deschedule: refusals in order, then the work. No `requires`. A refused call
// leaves every record as found.
ghost use Rattle.rules.specs.Wheel.{reschedule, deschedule};
ghost use Rattle.wheel_rules.specs.Lent.{records};
ghost use Rattle.wheel_rules.specs.Promise.{clock_after, timed_clock, rescheduled_says, timed_says, Promised};
ghost use Rattle.wheel_timers.specs.Slices.{nodes_now, entries_of, SameNodes};

use numbers::refusals::Refusal;
use wheel_refusals::handle_refusal;
use wheel_rules::calls::{After, Clock, Handle, Rescheduled};
use wheel_timers::lent::{Entries, NodesMut};

// Moves the timer with the handle, armed with the generation h, to the back of the bucket that its entry's deadline has
// now; without a deadline it is removed. Refuses (1, 4, 5, 12, 13).
pub fn reschedule(
    nodes: &mut NodesMut<'_>,
    entries: Entries<'_>,
    clock: Clock,
    handle: Handle,
    h: u32,
) -> Result<After<Rescheduled>, Refusal>
    ensures does { Promised (reschedule handle.slot handle.serial h)
        (records (nodes_now nodes.old) (entries_of entries.entry) clock)
        (records (nodes_now nodes.new) (entries_of entries.entry) (clock_after clock result))
        (rescheduled_says result) }
    ensures same { SameNodes nodes.old nodes.new }
{
    handle_refusal(nodes.as_read(), entries, clock, handle, h)?;
    let e = nodes.entry[handle.slot];
    if !entries.dated[e] {
        return Ok(After {
            clock: nodes.disarm(clock, handle.slot),
            answer: Rescheduled::Removed,
        });
    }
    nodes.rearm(clock.reading, handle.slot, entries.deadline[e]);
    Ok(After {
        clock,
        answer: Rescheduled::Moved,
    })
}

// Unlinks and frees the timer with the handle, armed with the generation h. Refuses (1, 4, 5, 12, 13).
pub fn deschedule(
    nodes: &mut NodesMut<'_>,
    entries: Entries<'_>,
    clock: Clock,
    handle: Handle,
    h: u32,
) -> Result<Clock, Refusal>
    ensures does { Promised (deschedule handle.slot handle.serial h)
        (records (nodes_now nodes.old) (entries_of entries.entry) clock)
        (records (nodes_now nodes.new) (entries_of entries.entry) (timed_clock clock result)) (timed_says result) }
    ensures same { SameNodes nodes.old nodes.new }
{
    handle_refusal(nodes.as_read(), entries, clock, handle, h)?;
    Ok(nodes.disarm(clock, handle.slot))
}
