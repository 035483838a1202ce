// Create, and enable answered in numbers. No `requires`. A refused call leaves every record as found.
ghost use Rattle.face_rules.specs.Face.{Told, records_of};
ghost use Rattle.rules.specs.Wheel.{ok};
ghost use Rattle.wheel_rules.specs.Promise.{enabling, Begins};

use crate::words::tell;
use face::enable;
use face_rules::Node;
use wheel_rules::calls::{Clock, Created};

// Begins a wheel with this first serial: clock, heads and tails by value. Never refused.
pub fn wheel_create(first: u64) -> Created
    ensures { Begins first result.clock result.heads result.tails ok }
{
    wheel::create(first)
}

// Lays the lent nodes and entries out as a wheel with no timer. Refuses (2, 3).
pub fn wheel_enable(
    nodes: &mut [Node],
    clock: &mut Clock,
    heads: &mut [usize],
    tails: &mut [usize],
    dated: &mut [bool],
    deadline: &mut [u64],
    stamp: &mut [u32],
    answer: &mut [u64; 5],
) -> u64
    ensures { Told
        (enabling (records_of heads.old tails.old nodes.old dated.old deadline.old stamp.old clock.old))
        (records_of heads.old tails.old nodes.old dated.old deadline.old stamp.old clock.old)
        (records_of heads.new tails.new nodes.new dated.new deadline.new stamp.new clock.new) answer.new result }
{
    let told = enable(nodes, clock, heads, tails, dated, deadline, stamp);
    tell(told, answer)
}
