// For proved code only, unchecked: start, end and abandon. They change the clock alone. (It is written field by field:
// made over another, by `..clock`, was tried, and the timed calls are slower.)
ghost use Rattle.rules.specs.Places.{wheel01};
ghost use Rattle.wheel_rules.specs.records.Moments.{Starts, EndsAdvance, Abandons};

use wheel_rules::calls::Clock;

// Opens an advance to q. It stands before its first bucket.
#[inline(always)]
pub fn start(clock: Clock, q: u64) -> Clock
    ensures { Starts wheel01 clock result q }
{
    let mut after = clock;
    after.previous = clock.reading;
    after.reading = q;
    after.open = true;
    after.level = 0;
    after.step = 0;
    after
}

// Closes the advance and keeps its reading.
#[inline(always)]
pub fn end(clock: Clock) -> Clock
    ensures { EndsAdvance wheel01 clock result }
{
    let mut after = clock;
    after.open = false;
    after.previous = 0;
    after.level = 0;
    after.step = 0;
    after
}

// Closes the advance and restores the reading that it started from.
#[inline(always)]
pub fn abandon(clock: Clock) -> Clock
    ensures { Abandons wheel01 clock result }
{
    let mut after = end(clock);
    after.reading = clock.previous;
    after
}
