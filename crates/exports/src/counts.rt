// Armed count and next due, answered in numbers. They change no record. No `requires`.
ghost use Rattle.face_rules.specs.Face.{Told, records_of};
ghost use Rattle.rules.specs.Wheel.{armed_count, next_due};

use crate::words::tell;
use face::{armed_count, next_due};
use face_rules::Node;
use wheel_rules::calls::Clock;

// How many slots are armed. It answers while an advance is open too. Refuses (1, 4).
pub fn wheel_armed_count(
    nodes: &[Node],
    clock: Clock,
    heads: &[usize],
    tails: &[usize],
    dated: &[bool],
    deadline: &[u64],
    stamp: &[u32],
    answer: &mut [u64; 5],
) -> u64
    ensures { Told armed_count
        (records_of heads.now tails.now nodes.now dated.now deadline.now stamp.now clock)
        (records_of heads.now tails.now nodes.now dated.now deadline.now stamp.now clock) answer.new result }
{
    let told = armed_count(nodes, clock, heads, tails, dated, deadline, stamp);
    tell(told, answer)
}

// The least deadline of the armed timers, or none. Refuses (1, 4, 5).
pub fn wheel_next_due(
    nodes: &[Node],
    clock: Clock,
    heads: &[usize],
    tails: &[usize],
    dated: &[bool],
    deadline: &[u64],
    stamp: &[u32],
    answer: &mut [u64; 5],
) -> u64
    ensures { Told next_due
        (records_of heads.now tails.now nodes.now dated.now deadline.now stamp.now clock)
        (records_of heads.now tails.now nodes.now dated.now deadline.now stamp.now clock) answer.new result }
{
    let told = next_due(nodes, clock, heads, tails, dated, deadline, stamp);
    tell(told, answer)
}
