// Schedule, reschedule and deschedule, answered in numbers. No `requires`. A refused call leaves every record as found.
ghost use Rattle.face_rules.specs.Face.{Told, records_of};
ghost use Rattle.rules.specs.Wheel.{schedule, reschedule, deschedule};

use crate::words::tell;
use face::{deschedule, reschedule, schedule};
use face_rules::Node;
use wheel_rules::calls::{Clock, Handle};

// Arms a timer for the entry e, whose generation is h. Refuses (1, 4, 5, 7 to 11).
pub fn wheel_schedule(
    nodes: &mut [Node],
    clock: &mut Clock,
    heads: &mut [usize],
    tails: &mut [usize],
    dated: &[bool],
    deadline: &[u64],
    stamp: &[u32],
    e: usize,
    h: u32,
    answer: &mut [u64; 5],
) -> u64
    ensures { Told (schedule e h)
        (records_of heads.old tails.old nodes.old dated.now deadline.now stamp.now clock.old)
        (records_of heads.new tails.new nodes.new dated.now deadline.now stamp.now clock.new) answer.new result }
{
    let told = schedule(nodes, clock, heads, tails, dated, deadline, stamp, e, h);
    tell(told, answer)
}

// Moves the timer with the handle (slot, number), armed with the generation h, or removes it. Refuses (1, 4, 5, 12,
// 13).
// Kept for the C interface: the handle as two numbers, here and below.
pub fn wheel_reschedule(
    nodes: &mut [Node],
    clock: &mut Clock,
    heads: &mut [usize],
    tails: &mut [usize],
    dated: &[bool],
    deadline: &[u64],
    stamp: &[u32],
    slot: usize,
    number: u64,
    h: u32,
    answer: &mut [u64; 5],
) -> u64
    ensures { Told (reschedule slot number h)
        (records_of heads.old tails.old nodes.old dated.now deadline.now stamp.now clock.old)
        (records_of heads.new tails.new nodes.new dated.now deadline.now stamp.now clock.new) answer.new result }
{
    let handle = Handle {
        slot,
        serial: number,
    };
    let told = reschedule(
        nodes, clock, heads, tails, dated, deadline, stamp, handle, h,
    );
    tell(told, answer)
}

// Removes the timer with the handle (slot, number), armed with the generation h. Refuses (1, 4, 5, 12, 13).
pub fn wheel_deschedule(
    nodes: &mut [Node],
    clock: &mut Clock,
    heads: &mut [usize],
    tails: &mut [usize],
    dated: &[bool],
    deadline: &[u64],
    stamp: &[u32],
    slot: usize,
    number: u64,
    h: u32,
    answer: &mut [u64; 5],
) -> u64
    ensures { Told (deschedule slot number h)
        (records_of heads.old tails.old nodes.old dated.now deadline.now stamp.now clock.old)
        (records_of heads.new tails.new nodes.new dated.now deadline.now stamp.now clock.new) answer.new result }
{
    let handle = Handle {
        slot,
        serial: number,
    };
    let told = deschedule(
        nodes, clock, heads, tails, dated, deadline, stamp, handle, h,
    );
    tell(told, answer)
}
