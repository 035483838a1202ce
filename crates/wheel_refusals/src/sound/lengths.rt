// Whether the lent lengths are those at enabling, and these in their ranges. No `requires`.
ghost use Rattle.wheel_rules.specs.Lent.{Decides, records, Ranges, EndsLengths, NodesLengths, EntriesLengths, Lengths};
ghost use Rattle.wheel_timers.specs.Slices.{nodes_of, entries_of};

use wheel_rules::calls::Clock;
use wheel_timers::lent::{Entries, Nodes};

// The most node records, and the most entries.
const MOST: usize = 4096;

// A slot or more beyond the sentinels, an entry or more, and not too many of either.
pub fn ranged(total: usize, nodes: usize, entries: usize) -> bool
    ensures { Decides (Ranges total nodes entries) result }
{
    total < nodes && nodes <= MOST && 0 < entries && entries <= MOST
}

// Heads and tails.
pub fn ends_lent(total: usize, heads: usize, tails: usize) -> bool
    ensures { Decides (EndsLengths total heads tails) result }
{
    heads == total && tails == total
}

// The slices of the node records.
pub fn nodes_lent(
    nodes: usize,
    next: usize,
    prev: usize,
    bucket: usize,
    entry: usize,
    generation: usize,
    serial: usize,
) -> bool
    ensures { Decides (NodesLengths nodes next prev bucket entry generation serial) result }
{
    next == nodes
        && prev == nodes
        && bucket == nodes
        && entry == nodes
        && generation == nodes
        && serial == nodes
}

// The slices of the entries.
pub fn entries_lent(entries: usize, dated: usize, deadline: usize, generation: usize) -> bool
    ensures { Decides (EntriesLengths entries dated deadline generation) result }
{
    dated == entries && deadline == entries && generation == entries
}

// All the lent slices, by the lengths that the clock has recorded.
pub fn lengths_kept(nodes: Nodes<'_>, entries: Entries<'_>, clock: Clock, total: usize) -> bool
    ensures { Decides (Lengths total (records (nodes_of nodes.entry) (entries_of entries.entry) clock)) result }
{
    let links = nodes.linked;
    ranged(total, clock.nodes, clock.entries)
        && ends_lent(total, links.heads.len(), links.tails.len())
        && nodes_lent(
            clock.nodes,
            links.next.len(),
            links.prev.len(),
            links.home.len(),
            nodes.entry.len(),
            nodes.generation.len(),
            nodes.serial.len(),
        )
        && entries_lent(
            clock.entries,
            entries.dated.len(),
            entries.deadline.len(),
            entries.generation.len(),
        )
}
