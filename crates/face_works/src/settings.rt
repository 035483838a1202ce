// The work of set entry. No `requires`.
ghost use Rattle.face_rules.specs.Works.{Loaded};
ghost use Rattle.nodes.specs.Held.{held};
ghost use Rattle.rules.specs.Wheel.{set_entry};
ghost use Rattle.wheel_rules.specs.Promise.{due_told, noted_says};
ghost use Rattle.wheel_timers.specs.Slices.{entries_now, SameEntries};

use crate::lending::read;
use crate::refusals::crowded;
use nodes::Columns;
use numbers::refusals::Refusal;
use wheel_rules::calls::Clock;
use wheel_timers::lent::EntriesMut;

// Set entry: the deadline of the entry e, or none, and its generation. Refuses (1, 4, 5, 7).
pub fn set_entry_work(
    columns: &Columns,
    n: usize,
    clock: Clock,
    heads: &[usize],
    tails: &[usize],
    entries: &mut EntriesMut<'_>,
    e: usize,
    deadline: Option<u64>,
    h: u32,
) -> Result<(), Refusal>
    ensures does { Loaded (set_entry e (due_told deadline) h)
        (held columns.now) n clock clock heads.now tails.now (entries_now entries.old) (entries_now entries.new)
        (noted_says result) }
    ensures same { SameEntries entries.old entries.new }
{
    if 4096 < n {
        return Err(crowded(clock));
    }
    let slots = read(columns, n, heads, tails);
    wheel::set_entry(slots, entries, clock, e, deadline, h)
}
