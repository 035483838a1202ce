// Set entry, answered in numbers. No `requires`. A refused call leaves every record as found.
ghost use Rattle.std.specs.Prelude.{cond};
ghost use Rattle.std.proofs.Math.Option.{none, some};
ghost use Rattle.face_rules.specs.Face.{Told, records_of};
ghost use Rattle.rules.specs.Wheel.{set_entry};

use face_rules::Node;
use wheel_rules::calls::Clock;

// Sets the entry e: whether it has a deadline, which, and its generation. Refuses (1, 4, 5, 7).
// Kept for the C interface: a flag with the deadline beside it.
#[unsafe(no_mangle)]
pub extern "C" fn wheel_set_entry(
    nodes: &[Node],
    clock: Clock,
    heads: &[usize],
    tails: &[usize],
    dated: &mut [bool],
    deadline: &mut [u64],
    stamp: &mut [u32],
    e: usize,
    has: bool,
    due: u64,
    h: u32,
    answer: &mut [u64; 5],
) -> u64
    ensures { Told (set_entry e (cond has (some due) none) h)
        (records_of heads.now tails.now nodes.now dated.old deadline.old stamp.old clock)
        (records_of heads.now tails.now nodes.now dated.new deadline.new stamp.new clock) answer.new result }
{
    exports::settings::wheel_set_entry(
        nodes, clock, heads, tails, dated, deadline, stamp, e, has, due, h, answer,
    )
}
