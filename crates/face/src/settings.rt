// Set entry over lent nodes. No `requires`. A refused call leaves every record as found.
ghost use Rattle.face_rules.specs.Face.{records_of};
ghost use Rattle.rules.specs.Wheel.{set_entry};
ghost use Rattle.wheel_rules.specs.Promise.{due_told, noted_says, Promised};

use face_rules::Node;
use face_works::settings::set_entry_work;
use nodes::Columns;
use numbers::refusals::Refusal;
use wheel::EntriesMut;
use wheel_rules::calls::Clock;

// Sets the entry e: its deadline `due`, or none, and its generation. Refuses (1, 4, 5, 7).
pub fn set_entry(
    nodes: &[Node],
    clock: Clock,
    heads: &[usize],
    tails: &[usize],
    dated: &mut [bool],
    deadline: &mut [u64],
    stamp: &mut [u32],
    e: usize,
    due: Option<u64>,
    h: u32,
) -> Result<(), Refusal>
    ensures { Promised (set_entry e (due_told due) h)
        (records_of heads.now tails.now nodes.now dated.old deadline.old stamp.old clock)
        (records_of heads.now tails.now nodes.now dated.new deadline.new stamp.new clock) (noted_says result) }
{
    let mut columns = Columns::zeroed();
    columns.load(nodes);
    let mut entries = EntriesMut {
        dated,
        deadline,
        generation: stamp,
    };
    set_entry_work(
        &columns,
        nodes.len(),
        clock,
        heads,
        tails,
        &mut entries,
        e,
        due,
        h,
    )
}
