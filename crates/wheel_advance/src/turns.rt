// For proved code only, unchecked: the turns of a pull. Each does one thing: enter the next bucket, pop one node, or
// end.
ghost use Rattle.deque.specs.Slices.{links_now, SameSlices};
ghost use Rattle.rules.specs.Places.{wheel01};
ghost use Rattle.wheel_rules.specs.popping.Pop.{TurnReady};
ghost use Rattle.wheel_rules.specs.turns.Turns.{WaitReady, Waits, OnReady, GoesOn, Turned};
ghost use Rattle.wheel_timers.specs.Slices.{nodes_now, SameNodes};

use crate::pop::pop;
use crate::position::next_position;
use deque::NONE;
use deque::linked::LinkedMut;
use deque::read::front;
use wheel_rules::calls::{Clock, Event};
use wheel_rules::popping::Turn;
use wheel_timers::lent::{Entries, NodesMut};
use wheel_timers::moments::end;
use wheel_timers::place::visits::bucket_at;

// The first node before the sentinel of the bucket that the advance stands in, or NONE where there is none.
// It answers a slot's number or NONE: a rule of the project, 01's forms.
#[inline(always)]
pub fn waiting(heads: &[usize], clock: Clock) -> usize
    requires { WaitReady wheel01 heads.now }
    ensures { Waits wheel01 heads.now clock result }
{
    if clock.step == 0 {
        return NONE;
    }
    let b = bucket_at(clock.level, clock.previous, clock.step - 1);
    let x = front(heads, b);
    if x == b {
        return NONE;
    }
    x
}

// Enters the next bucket, so that its sentinel is last; or ends the advance where there is none.
#[inline(always)]
fn go_on(linked: &mut LinkedMut<'_>, clock: Clock) -> Turn
    requires { OnReady wheel01 (links_now linked.old) clock }
    ensures does { GoesOn wheel01 (links_now linked.old) clock (links_now linked.new) result }
    ensures same { SameSlices linked.old linked.new }
{
    let Some(to) = next_position(clock.previous, clock.reading, clock.level, clock.step) else {
        let closed = end(clock);
        return Turn {
            clock: closed,
            event: Some(Event::End),
        };
    };
    let b = bucket_at(to.level, clock.previous, to.step - 1);
    linked.turn(b, b);
    // (made over the clock, by `..clock`, it was tried, and is slower)
    let mut after = clock;
    after.level = to.level;
    after.step = to.step;
    Turn {
        clock: after,
        event: None,
    }
}

// One turn: pops the first node before the sentinel, or goes on where there is none.
#[inline(always)]
pub fn take_turn(nodes: &mut NodesMut<'_>, entries: &Entries<'_>, clock: Clock) -> Turn
    requires { TurnReady wheel01 (nodes_now nodes.old) entries.now.dated.now entries.now.deadline.now clock }
    ensures does { Turned
        wheel01 (nodes_now nodes.old) entries.now.dated.now entries.now.deadline.now clock (nodes_now nodes.new)
        result }
    ensures same { SameNodes nodes.old nodes.new }
{
    let x = waiting(nodes.linked.as_read().heads, clock);
    if x < nodes.linked.next.len() {
        return pop(nodes, entries, clock, x);
    }
    go_on(&mut nodes.linked, clock)
}
