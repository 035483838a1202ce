// Where an open advance stands: before its first bucket or in one that it visits. No `requires`.
ghost use Rattle.rules.specs.Places.{wheel01};
ghost use Rattle.wheel_rules.specs.Lent.{Decides, StandsAt, AdvanceStands};

use wheel_rules::calls::Clock;
use wheel_timers::place::visits::visited;

const LAST: usize = 4;

// Whether an advance stands on a level that there is, before the first bucket of all or in one that it visits.
pub fn stands_at(previous: u64, reading: u64, level: usize, step: usize) -> bool
    ensures { Decides (StandsAt wheel01 previous reading level step) result }
{
    if LAST < level {
        return false;
    }
    if step == 0 {
        return level == 0;
    }
    step <= visited(level, previous, reading)
}

// The same of the clock's advance, if one is open.
pub fn advance_stands(clock: Clock) -> bool
    ensures { Decides (AdvanceStands wheel01 clock) result }
{
    !clock.open || stands_at(clock.previous, clock.reading, clock.level, clock.step)
}
