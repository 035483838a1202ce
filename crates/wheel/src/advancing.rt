// Start and abandon: refusals in order, then the clock. They move no node. No `requires`. A refused call leaves every
// record as found.
ghost use Rattle.rules.specs.Wheel.{start, abandon};
ghost use Rattle.wheel_rules.specs.Lent.{records};
ghost use Rattle.wheel_rules.specs.Promise.{timed_clock, timed_says, Promised};
ghost use Rattle.wheel_timers.specs.Slices.{nodes_of, entries_of};

use numbers::refusals::Refusal;
use wheel_refusals::{closed_refusal, open_refusal};
use wheel_rules::calls::Clock;
use wheel_timers::lent::{Entries, Nodes};
use wheel_timers::moments;

// Opens an advance to q: the reading becomes q, the old one is kept. It moves no node. Refuses (1, 4, 5).
pub fn start(nodes: Nodes<'_>, entries: Entries<'_>, clock: Clock, q: u64) -> Result<Clock, Refusal>
    ensures { Promised (start q) (records (nodes_of nodes.entry) (entries_of entries.entry) clock)
        (records (nodes_of nodes.entry) (entries_of entries.entry) (timed_clock clock result)) (timed_says result) }
{
    closed_refusal(nodes, entries, clock)?;
    Ok(moments::start(clock, q))
}

// Closes the open advance and restores the reading that it started from. What was pulled stays pulled, what was moved
// stays moved. Refuses (1, 4, 6).
pub fn abandon(nodes: Nodes<'_>, entries: Entries<'_>, clock: Clock) -> Result<Clock, Refusal>
    ensures { Promised abandon (records (nodes_of nodes.entry) (entries_of entries.entry) clock)
        (records (nodes_of nodes.entry) (entries_of entries.entry) (timed_clock clock result)) (timed_says result) }
{
    open_refusal(nodes, entries, clock)?;
    Ok(moments::abandon(clock))
}
