// For proved code only, unchecked: the buckets that an advance passes over. Where a bucket holds its sentinel alone,
// entering it changes no record, so that the advance stands in it at once. A caller shows that each bucket has a head
// and its sentinel a record.
ghost use Rattle.rules.specs.Places.{wheel01};
ghost use Rattle.wheel_rules.specs.pull.Skips.{Lent, TellsAlone, PassReady, IdleReady, Passes};
ghost use Rattle.wheel_rules.specs.records.Clocks.{standing};

use crate::turns::waiting;
use deque::linked::Linked;
use deque::read::{following, front};
use wheel_rules::calls::Clock;
use wheel_timers::place::visits::{bucket_at, visited};

// Whether the bucket b holds its sentinel alone: that is both first and last.
#[inline(always)]
fn alone(linked: Linked<'_>, b: usize) -> bool
    requires { Lent linked.heads.now linked.next.now b }
    ensures { TellsAlone linked.entry.heads.now linked.entry.next.now b result }
{
    if front(linked.heads, b) != b {
        return false;
    }
    linked.next.len() <= following(linked.next, b)
}

// The step once every next bucket of the level that holds its sentinel alone has been entered.
#[inline(always)]
fn step_past(linked: Linked<'_>, clock: Clock) -> usize
    requires { IdleReady wheel01 linked.heads.now linked.next.now clock }
    ensures { Passes
        wheel01 linked.entry.heads.now linked.entry.next.now clock (standing clock.level result clock) }
{
    let count = visited(clock.level, clock.previous, clock.reading);
    for step in clock.step..count {
        let b = bucket_at(clock.level, clock.previous, step);
        if !alone(linked, b) {
            return step;
        }
    }
    count.max(clock.step)
}

// As long as no node waits and the next bucket of the level holds its sentinel alone, the advance goes on to it.
#[inline(always)]
pub fn pass_over(linked: Linked<'_>, clock: Clock) -> Clock
    requires { PassReady wheel01 linked.heads.now linked.next.now }
    ensures { Passes wheel01 linked.entry.heads.now linked.entry.next.now clock result }
{
    if waiting(linked.heads, clock) < linked.next.len() {
        return clock;
    }
    // (made over the clock, by `..clock`, it was tried, and is slower)
    let mut after = clock;
    after.step = step_past(linked, clock);
    after
}
