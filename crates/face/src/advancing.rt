// Start, pull and abandon over lent nodes. No `requires`. A refused call leaves every record as found.
ghost use Rattle.face_rules.specs.Face.{pulled_says, records_of};
ghost use Rattle.rules.specs.Wheel.{start, pull, abandon};
ghost use Rattle.wheel_rules.specs.Promise.{noted_says, Promised};

use crate::writing::write_nodes;
use face_rules::Node;
use face_works::advancing::{abandon_work, start_work};
use face_works::writing::Pull;
use nodes::Columns;
use numbers::refusals::Refusal;
use wheel::Entries;
use wheel_rules::calls::{Clock, Event};

// Opens an advance to q. Refuses (1, 4, 5).
pub fn start(
    nodes: &[Node],
    clock: &mut Clock,
    heads: &[usize],
    tails: &[usize],
    dated: &[bool],
    deadline: &[u64],
    stamp: &[u32],
    q: u64,
) -> Result<(), Refusal>
    ensures { Promised (start q)
        (records_of heads.now tails.now nodes.now dated.now deadline.now stamp.now clock.old)
        (records_of heads.now tails.now nodes.now dated.now deadline.now stamp.now clock.new) (noted_says result) }
{
    let entries = Entries {
        dated,
        deadline,
        generation: stamp,
    };
    let mut columns = Columns::zeroed();
    columns.load(nodes);
    let after = start_work(&columns, nodes.len(), *clock, heads, tails, entries, q);
    *clock = after.clock;
    after.answer
}

// One event of the open advance, or End. Refuses (1, 4, 6).
pub fn pull(
    nodes: &mut [Node],
    clock: &mut Clock,
    heads: &mut [usize],
    tails: &mut [usize],
    dated: &[bool],
    deadline: &[u64],
    stamp: &[u32],
) -> Result<Event, Refusal>
    ensures { Promised pull
        (records_of heads.old tails.old nodes.old dated.now deadline.now stamp.now clock.old)
        (records_of heads.new tails.new nodes.new dated.now deadline.now stamp.now clock.new) (pulled_says result) }
{
    let entries = Entries {
        dated,
        deadline,
        generation: stamp,
    };
    write_nodes(nodes, clock, heads, tails, entries, Pull)
}

// Closes the open advance and restores the reading that it started from. Refuses (1, 4, 6).
pub fn abandon(
    nodes: &[Node],
    clock: &mut Clock,
    heads: &[usize],
    tails: &[usize],
    dated: &[bool],
    deadline: &[u64],
    stamp: &[u32],
) -> Result<(), Refusal>
    ensures { Promised abandon
        (records_of heads.now tails.now nodes.now dated.now deadline.now stamp.now clock.old)
        (records_of heads.now tails.now nodes.now dated.now deadline.now stamp.now clock.new) (noted_says result) }
{
    let entries = Entries {
        dated,
        deadline,
        generation: stamp,
    };
    let mut columns = Columns::zeroed();
    columns.load(nodes);
    let after = abandon_work(&columns, nodes.len(), *clock, heads, tails, entries);
    *clock = after.clock;
    after.answer
}
