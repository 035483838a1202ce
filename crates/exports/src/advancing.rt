// Start, pull and abandon, answered in numbers. No `requires`. A refused call leaves every record as found.
ghost use Rattle.face_rules.specs.Face.{Told, records_of};
ghost use Rattle.rules.specs.Wheel.{start, pull, abandon};

use crate::words::tell;
use face::{abandon, pull, start};
use face_rules::Node;
use wheel_rules::calls::Clock;

// Opens an advance to q. Refuses (1, 4, 5).
pub fn wheel_start(
    nodes: &[Node],
    clock: &mut Clock,
    heads: &[usize],
    tails: &[usize],
    dated: &[bool],
    deadline: &[u64],
    stamp: &[u32],
    q: u64,
    answer: &mut [u64; 5],
) -> u64
    ensures { Told (start q)
        (records_of heads.now tails.now nodes.now dated.now deadline.now stamp.now clock.old)
        (records_of heads.now tails.now nodes.now dated.now deadline.now stamp.now clock.new) answer.new result }
{
    let told = start(nodes, clock, heads, tails, dated, deadline, stamp, q);
    tell(told, answer)
}

// One event of the open advance, or End. Refuses (1, 4, 6).
pub fn wheel_pull(
    nodes: &mut [Node],
    clock: &mut Clock,
    heads: &mut [usize],
    tails: &mut [usize],
    dated: &[bool],
    deadline: &[u64],
    stamp: &[u32],
    answer: &mut [u64; 5],
) -> u64
    ensures { Told pull
        (records_of heads.old tails.old nodes.old dated.now deadline.now stamp.now clock.old)
        (records_of heads.new tails.new nodes.new dated.now deadline.now stamp.now clock.new) answer.new result }
{
    let told = pull(nodes, clock, heads, tails, dated, deadline, stamp);
    tell(told, answer)
}

// Closes the open advance and restores the reading that it started from. Refuses (1, 4, 6).
pub fn wheel_abandon(
    nodes: &[Node],
    clock: &mut Clock,
    heads: &[usize],
    tails: &[usize],
    dated: &[bool],
    deadline: &[u64],
    stamp: &[u32],
    answer: &mut [u64; 5],
) -> u64
    ensures { Told abandon
        (records_of heads.now tails.now nodes.now dated.now deadline.now stamp.now clock.old)
        (records_of heads.now tails.now nodes.now dated.now deadline.now stamp.now clock.new) answer.new result }
{
    let told = abandon(nodes, clock, heads, tails, dated, deadline, stamp);
    tell(told, answer)
}
