// For proved code only, unchecked: a pull. It does no more than reach its answer.
ghost use Rattle.rules.specs.Places.{wheel01};
ghost use Rattle.wheel_rules.specs.popping.Pop.{TurnReady};
ghost use Rattle.wheel_rules.specs.pull.Pull.{Pulls};
ghost use Rattle.wheel_timers.specs.Slices.{nodes_now, SameNodes};

use crate::skips::pass_over;
use crate::turns::take_turn;
use wheel_rules::calls::{After, Clock, Event};
use wheel_timers::lent::{Entries, NodesMut};

// One event, or End, which closes the advance and keeps its reading.
#[inline(always)]
pub fn pull(nodes: &mut NodesMut<'_>, entries: &Entries<'_>, clock: Clock) -> After<Event>
    requires { TurnReady wheel01 (nodes_now nodes.old) entries.now.dated.now entries.now.deadline.now clock }
    ensures does { Pulls
        wheel01 (nodes_now nodes.old) entries.now.dated.now entries.now.deadline.now clock (nodes_now nodes.new)
        result.clock result.answer }
    ensures same { SameNodes nodes.old nodes.new }
{
    let mut c = clock;
    loop {
        let t = take_turn(nodes, entries, c);
        if let Some(event) = t.event {
            return After {
                clock: t.clock,
                answer: event,
            };
        }
        c = pass_over(nodes.linked.as_read(), t.clock);
    }
}
