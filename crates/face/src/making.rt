// Enable over lent nodes. No `requires`. A refused call leaves every record as found.
ghost use Rattle.face_rules.specs.Face.{records_of};
ghost use Rattle.wheel_rules.specs.Promise.{noted_says, enabling, Promised};

use face_rules::Node;
use face_works::making::enable_work;
use nodes::laying::lay;
use numbers::refusals::Refusal;
use wheel::EntriesMut;
use wheel_rules::calls::Clock;

// Lays the lent nodes and entries out as a wheel with no timer. Refuses (2, 3).
pub fn enable(
    nodes: &mut [Node],
    clock: &mut Clock,
    heads: &mut [usize],
    tails: &mut [usize],
    dated: &mut [bool],
    deadline: &mut [u64],
    stamp: &mut [u32],
) -> Result<(), Refusal>
    ensures { Promised
        (enabling (records_of heads.old tails.old nodes.old dated.old deadline.old stamp.old clock.old))
        (records_of heads.old tails.old nodes.old dated.old deadline.old stamp.old clock.old)
        (records_of heads.new tails.new nodes.new dated.new deadline.new stamp.new clock.new) (noted_says result) }
{
    let mut entries = EntriesMut {
        dated,
        deadline,
        generation: stamp,
    };
    let after = enable_work(nodes.len(), *clock, heads, tails, &mut entries);
    *clock = after.clock;
    lay(nodes, after.answer.is_ok());
    after.answer
}
