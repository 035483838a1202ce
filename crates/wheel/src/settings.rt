// Set entry: refusals in order, then the work. No `requires`. A refused call leaves every record as found.
ghost use Rattle.rules.specs.Wheel.{set_entry};
ghost use Rattle.wheel_rules.specs.Lent.{records};
ghost use Rattle.wheel_rules.specs.Promise.{due_told, noted_says, Promised};
ghost use Rattle.wheel_timers.specs.Slices.{nodes_of, entries_now, SameEntries};

use numbers::refusals::Refusal;
use wheel_refusals::entry_refusal;
use wheel_rules::calls::Clock;
use wheel_timers::lent::{EntriesMut, Nodes};

// Sets the entry e: its deadline, or none, and its generation. Refuses (1, 4, 5, 7).
pub fn set_entry(
    nodes: Nodes<'_>,
    entries: &mut EntriesMut<'_>,
    clock: Clock,
    e: usize,
    deadline: Option<u64>,
    h: u32,
) -> Result<(), Refusal>
    ensures does { Promised (set_entry e (due_told deadline) h)
        (records (nodes_of nodes.entry) (entries_now entries.old) clock)
        (records (nodes_of nodes.entry) (entries_now entries.new) clock) (noted_says result) }
    ensures same { SameEntries entries.old entries.new }
{
    entry_refusal(nodes, entries.as_read(), clock, e)?;
    entries.set_entry(e, deadline.is_some(), deadline.unwrap_or(0), h);
    Ok(())
}
