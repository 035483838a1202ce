// The work of armed count and next due. No `requires`.
ghost use Rattle.face_rules.specs.Works.{Loaded};
ghost use Rattle.nodes.specs.Held.{held};
ghost use Rattle.rules.specs.Wheel.{armed_count, next_due};
ghost use Rattle.wheel_rules.specs.Promise.{counted_says, due_says};
ghost use Rattle.wheel_timers.specs.Slices.{entries_of};

use crate::lending::read;
use crate::refusals::crowded;
use nodes::Columns;
use numbers::refusals::Refusal;
use wheel_rules::calls::Clock;
use wheel_timers::lent::Entries;

// Armed count: how many slots are armed. Refuses (1, 4).
pub fn armed_count_work(
    columns: &Columns,
    n: usize,
    clock: Clock,
    heads: &[usize],
    tails: &[usize],
    entries: Entries<'_>,
) -> Result<usize, Refusal>
    ensures { Loaded armed_count
        (held columns.now) n clock clock heads.now tails.now (entries_of entries.entry)
        (entries_of entries.entry) (counted_says result) }
{
    if 4096 < n {
        return Err(crowded(clock));
    }
    wheel::armed_count(read(columns, n, heads, tails), entries, clock)
}

// Next due: the smallest deadline among armed timers, or none. Refuses (1, 4, 5).
pub fn next_due_work(
    columns: &Columns,
    n: usize,
    clock: Clock,
    heads: &[usize],
    tails: &[usize],
    entries: Entries<'_>,
) -> Result<Option<u64>, Refusal>
    ensures { Loaded next_due
        (held columns.now) n clock clock heads.now tails.now (entries_of entries.entry)
        (entries_of entries.entry) (due_says result) }
{
    if 4096 < n {
        return Err(crowded(clock));
    }
    wheel::next_due(read(columns, n, heads, tails), entries, clock)
}
