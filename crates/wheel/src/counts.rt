// Armed count and next due: refusals in order, then the count. They change nothing. No `requires`.
ghost use Rattle.rules.specs.Wheel.{armed_count, next_due};
ghost use Rattle.wheel_rules.specs.Lent.{records};
ghost use Rattle.wheel_rules.specs.Promise.{counted_says, due_says, Promised};
ghost use Rattle.wheel_timers.specs.Slices.{nodes_of, entries_of};

use numbers::refusals::Refusal;
use wheel_refusals::{closed_refusal, standing_refusal};
use wheel_rules::calls::Clock;
use wheel_timers::lent::{Entries, Nodes};

// How many slots are armed. It answers while an advance is open too. Refuses (1, 4).
pub fn armed_count(nodes: Nodes<'_>, entries: Entries<'_>, clock: Clock) -> Result<usize, Refusal>
    ensures { Promised armed_count (records (nodes_of nodes.entry) (entries_of entries.entry) clock)
        (records (nodes_of nodes.entry) (entries_of entries.entry) clock) (counted_says result) }
{
    standing_refusal(nodes, entries, clock)?;
    Ok(nodes.armed_count())
}

// The smallest deadline among armed timers, or none. Refuses (1, 4, 5).
pub fn next_due(
    nodes: Nodes<'_>,
    entries: Entries<'_>,
    clock: Clock,
) -> Result<Option<u64>, Refusal>
    ensures { Promised next_due (records (nodes_of nodes.entry) (entries_of entries.entry) clock)
        (records (nodes_of nodes.entry) (entries_of entries.entry) clock) (due_says result) }
{
    closed_refusal(nodes, entries, clock)?;
    Ok(nodes.next_due(&entries))
}
