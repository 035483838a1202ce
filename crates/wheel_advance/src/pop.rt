// For proved code only, unchecked: the turn of a pull that pops one node.
ghost use Rattle.rules.specs.Places.{wheel01};
ghost use Rattle.wheel_rules.specs.popping.Pop.{PopReady, Pops};
ghost use Rattle.wheel_timers.specs.Slices.{nodes_now, SameNodes};

use wheel_rules::calls::{Clock, Event};
pub use wheel_rules::popping::Turn;
use wheel_timers::lent::{Entries, NodesMut};
use wheel_timers::place::find;

// Pops the node x: freed without an event where its entry has no deadline, freed with one where that is due, else
// placed anew.
#[inline(always)]
pub fn pop(nodes: &mut NodesMut<'_>, entries: &Entries<'_>, clock: Clock, x: usize) -> Turn
    requires { PopReady
        wheel01 (nodes_now nodes.old) entries.now.dated.now entries.now.deadline.now clock x }
    ensures does { Pops
        wheel01 (nodes_now nodes.old) entries.now.dated.now entries.now.deadline.now clock x
        (nodes_now nodes.new) result }
    ensures same { SameNodes nodes.old nodes.new }
{
    let e = nodes.entry[x];
    let n = nodes.serial[x];
    if !entries.dated[e] {
        let freed = nodes.disarm(clock, x);
        return Turn {
            clock: freed,
            event: None,
        };
    }
    let d = entries.deadline[e];
    if d <= clock.reading {
        let freed = nodes.disarm(clock, x);
        let expired = Event::Expired {
            entry: e,
            serial: n,
            deadline: d,
        };
        return Turn {
            clock: freed,
            event: Some(expired),
        };
    }
    let to = find(clock.reading, d);
    nodes.rearm(clock.reading, x, d);
    let moved = Event::Rescheduled {
        entry: e,
        serial: n,
        place: to.number,
    };
    Turn {
        clock,
        event: Some(moved),
    }
}
