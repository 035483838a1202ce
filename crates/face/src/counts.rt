// Armed count and next due over lent nodes. They change nothing. No `requires`.
ghost use Rattle.face_rules.specs.Face.{records_of};
ghost use Rattle.rules.specs.Wheel.{armed_count, next_due};
ghost use Rattle.wheel_rules.specs.Promise.{counted_says, due_says, Promised};

use face_rules::Node;
use face_works::counts::{armed_count_work, next_due_work};
use nodes::Columns;
use numbers::refusals::Refusal;
use wheel::Entries;
use wheel_rules::calls::Clock;

// How many slots are armed. It answers while an advance is open too. Refuses (1, 4).
pub fn armed_count(
    nodes: &[Node],
    clock: Clock,
    heads: &[usize],
    tails: &[usize],
    dated: &[bool],
    deadline: &[u64],
    stamp: &[u32],
) -> Result<usize, Refusal>
    ensures { Promised armed_count
        (records_of heads.now tails.now nodes.now dated.now deadline.now stamp.now clock)
        (records_of heads.now tails.now nodes.now dated.now deadline.now stamp.now clock) (counted_says result) }
{
    let entries = Entries {
        dated,
        deadline,
        generation: stamp,
    };
    let mut columns = Columns::zeroed();
    columns.load(nodes);
    armed_count_work(&columns, nodes.len(), clock, heads, tails, entries)
}

// The least deadline of the armed timers, or none. Refuses (1, 4, 5).
pub fn next_due(
    nodes: &[Node],
    clock: Clock,
    heads: &[usize],
    tails: &[usize],
    dated: &[bool],
    deadline: &[u64],
    stamp: &[u32],
) -> Result<Option<u64>, Refusal>
    ensures { Promised next_due
        (records_of heads.now tails.now nodes.now dated.now deadline.now stamp.now clock)
        (records_of heads.now tails.now nodes.now dated.now deadline.now stamp.now clock) (due_says result) }
{
    let entries = Entries {
        dated,
        deadline,
        generation: stamp,
    };
    let mut columns = Columns::zeroed();
    columns.load(nodes);
    next_due_work(&columns, nodes.len(), clock, heads, tails, entries)
}
