// For proved code only, unchecked: all but the node records, as enabling lays the records out, whatever they held.
ghost use Rattle.std.specs.Prelude.{◌≡◌, length};
ghost use Rattle.wheel_rules.specs.layout.Around.{SeatsEnds, AroundReady, LaysAround};
ghost use Rattle.wheel_timers.specs.Slices.{entries_now, SameEntries};

use crate::layout::enabled;
use crate::lent::EntriesMut;
use wheel_rules::calls::Clock;

// Makes each bucket's own number its head and its tail.
fn seat_ends(heads: &mut [usize], tails: &mut [usize])
    requires { length tails.old ≡ length heads.old }
    ensures { SeatsEnds heads.old heads.new tails.new }
{
    for b in 0..heads.len() {
        heads[b] = b;
        tails[b] = b;
    }
}

// Sentinels named by their buckets, no advance, each entry without a deadline, beside so many node records.
pub fn lay_out_around(
    heads: &mut [usize],
    tails: &mut [usize],
    entries: &mut EntriesMut<'_>,
    nodes: usize,
    clock: Clock,
) -> Clock
    requires { AroundReady heads.old tails.old (entries_now entries.old) }
    ensures does { LaysAround
        heads.old tails.old (entries_now entries.old) nodes clock heads.new tails.new
        (entries_now entries.new) result }
    ensures same { SameEntries entries.old entries.new }
{
    let after = enabled(clock, heads.len(), nodes, entries.dated.len());
    seat_ends(heads, tails);
    entries.clear();
    after
}
