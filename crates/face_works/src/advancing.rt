// The work of start and abandon. No `requires`.
ghost use Rattle.face_rules.specs.Works.{Loaded};
ghost use Rattle.nodes.specs.Held.{held};
ghost use Rattle.rules.specs.Wheel.{start, abandon};
ghost use Rattle.wheel_rules.specs.Promise.{noted_says};
ghost use Rattle.wheel_timers.specs.Slices.{entries_of};

use crate::answers::timed;
use crate::lending::read;
use crate::refusals::crowded;
use nodes::Columns;
use numbers::refusals::Refusal;
use wheel_rules::calls::{After, Clock};
use wheel_timers::lent::Entries;

// Start: opens an advance to q. Refuses (1, 4, 5).
pub fn start_work(
    columns: &Columns,
    n: usize,
    clock: Clock,
    heads: &[usize],
    tails: &[usize],
    entries: Entries<'_>,
    q: u64,
) -> After<Result<(), Refusal>>
    ensures { Loaded (start q)
        (held columns.now) n clock result.clock heads.now tails.now (entries_of entries.entry)
        (entries_of entries.entry) (noted_says result.answer) }
{
    if 4096 < n {
        return After {
            clock,
            answer: Err(crowded(clock)),
        };
    }
    let told = wheel::start(read(columns, n, heads, tails), entries, clock, q);
    timed(clock, told)
}

// Abandon: closes the open advance and restores the reading that it started from. Refuses (1, 4, 6).
pub fn abandon_work(
    columns: &Columns,
    n: usize,
    clock: Clock,
    heads: &[usize],
    tails: &[usize],
    entries: Entries<'_>,
) -> After<Result<(), Refusal>>
    ensures { Loaded abandon
        (held columns.now) n clock result.clock heads.now tails.now (entries_of entries.entry)
        (entries_of entries.entry) (noted_says result.answer) }
{
    if 4096 < n {
        return After {
            clock,
            answer: Err(crowded(clock)),
        };
    }
    let told = wheel::abandon(read(columns, n, heads, tails), entries, clock);
    timed(clock, told)
}
