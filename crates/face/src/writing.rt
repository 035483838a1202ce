// A call that writes nodes: they are read into columns, and stored back from them.
ghost use Rattle.face_rules.specs.Works.{lent_with};
ghost use Rattle.wheel_rules.specs.Promise.{Promised, says};
ghost use Rattle.wheel_timers.specs.Slices.{entries_of};

use face_rules::Node;
use face_works::writing::{Writing, stored};
use nodes::Columns;
use numbers::refusals::Refusal;
use wheel::Entries;
use wheel_rules::calls::Clock;

pub fn write_nodes<W: Writing + Drop>(
    nodes: &mut [Node],
    clock: &mut Clock,
    heads: &mut [usize],
    tails: &mut [usize],
    entries: Entries<'_>,
    call: W,
) -> Result<W::Value, Refusal>
    ensures { Promised (W.call call)
        (lent_with heads.old tails.old nodes.old (entries_of entries.entry) clock.old)
        (lent_with heads.new tails.new nodes.new (entries_of entries.entry) clock.new) (says W.told result) }
{
    let mut columns = Columns::zeroed();
    columns.load(nodes);
    let after = stored(
        &mut columns,
        nodes.len(),
        *clock,
        heads,
        tails,
        entries,
        call,
    );
    columns.store(nodes);
    *clock = after.clock;
    after.answer
}
