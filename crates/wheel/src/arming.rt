// Schedule: refusals in order, then the work. No `requires`. A refused call leaves every record as found.
ghost use Rattle.rules.specs.Wheel.{schedule};
ghost use Rattle.wheel_rules.specs.Lent.{records};
ghost use Rattle.wheel_rules.specs.Promise.{clock_after, scheduled_says, Promised};
ghost use Rattle.wheel_timers.specs.Slices.{nodes_now, entries_of, SameNodes};

use numbers::refusals::Refusal;
use wheel_refusals::schedule_refusal;
use wheel_rules::calls::{After, Clock, Handle};
use wheel_timers::lent::{Entries, NodesMut};

// Puts a new node for the entry e, whose generation is h, at the back of its bucket. Answers the handle, or refuses (1,
// 4, 5, 7 to 11).
pub fn schedule(
    nodes: &mut NodesMut<'_>,
    entries: Entries<'_>,
    clock: Clock,
    e: usize,
    h: u32,
) -> Result<After<Handle>, Refusal>
    ensures does { Promised (schedule e h) (records (nodes_now nodes.old) (entries_of entries.entry) clock)
        (records (nodes_now nodes.new) (entries_of entries.entry) (clock_after clock result)) (scheduled_says result) }
    ensures same { SameNodes nodes.old nodes.new }
{
    schedule_refusal(nodes.as_read(), entries, clock, e, h)?;
    let due = entries.deadline[e];
    Ok(nodes.arm(clock, e, h, due))
}
