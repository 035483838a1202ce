// Which refusal applies: that of the lowest number of 01 whose row holds. Each stage adds its rows to those of the
// stage before. They read the records (enable the lengths and the clock alone; `around_refusal` is given these as
// numbers) and change nothing.
// No `requires`.
#![tactic(auto)]

ghost use Rattle.numbers.specs.Rows.{refusal_in};
ghost use Rattle.wheel_rules.specs.Lent.{records};
ghost use Rattle.wheel_rules.specs.refusals.Refuse.{IsLast, RefusesEnable, RefusesAround, RefusesCount, RefusesClosed, RefusesOpen, RefusesSet, RefusesSchedule};
ghost use Rattle.wheel_rules.specs.refusals.Refuse.{RefusesHandle};
ghost use Rattle.wheel_timers.specs.Slices.{nodes_of, entries_of};

pub mod sound;

use crate::sound::is_sound;
use crate::sound::lengths::{ends_lent, entries_lent, nodes_lent, ranged};
use deque::NONE;
use numbers::refusals::Refusal;
use wheel_rules::calls::{Clock, Handle};
use wheel_timers::lent::{Entries, Nodes};

// The buckets of the wheel.
pub const BUCKETS: usize = 165;
// The serial that is never given: there is none after it.
const LAST: u64 = u64::MAX;

// Whether this serial is that one.
fn is_last(serial: u64) -> bool
    ensures { IsLast serial result }
{
    serial == LAST
}

// Armed count: 1, 4.
pub fn standing_refusal(nodes: Nodes<'_>, entries: Entries<'_>, clock: Clock) -> Result<(), Refusal>
    ensures { RefusesCount (records (nodes_of nodes.entry) (entries_of entries.entry) clock) (refusal_in result) }
{
    if !clock.enabled {
        return Err(Refusal::NotEnabled);
    }
    if !is_sound(nodes, entries, clock, BUCKETS) {
        return Err(Refusal::NotSound);
    }
    Ok(())
}

// Start, next due: 1, 4, 5.
pub fn closed_refusal(nodes: Nodes<'_>, entries: Entries<'_>, clock: Clock) -> Result<(), Refusal>
    ensures { RefusesClosed (records (nodes_of nodes.entry) (entries_of entries.entry) clock) (refusal_in result) }
{
    standing_refusal(nodes, entries, clock)?;
    if clock.open {
        return Err(Refusal::AdvanceOpen);
    }
    Ok(())
}

// Pull, abandon: 1, 4, 6.
pub fn open_refusal(nodes: Nodes<'_>, entries: Entries<'_>, clock: Clock) -> Result<(), Refusal>
    ensures { RefusesOpen (records (nodes_of nodes.entry) (entries_of entries.entry) clock) (refusal_in result) }
{
    standing_refusal(nodes, entries, clock)?;
    if !clock.open {
        return Err(Refusal::NoAdvanceOpen);
    }
    Ok(())
}

// Set entry: 1, 4, 5, 7.
pub fn entry_refusal(
    nodes: Nodes<'_>,
    entries: Entries<'_>,
    clock: Clock,
    e: usize,
) -> Result<(), Refusal>
    ensures { RefusesSet (records (nodes_of nodes.entry) (entries_of entries.entry) clock) e (refusal_in result) }
{
    closed_refusal(nodes, entries, clock)?;
    if clock.entries <= e {
        return Err(Refusal::NoSuchEntry);
    }
    Ok(())
}

// Schedule: 1, 4, 5, 7, 8, 9, 10, 11.
pub fn schedule_refusal(
    nodes: Nodes<'_>,
    entries: Entries<'_>,
    clock: Clock,
    e: usize,
    h: u32,
) -> Result<(), Refusal>
    ensures { RefusesSchedule (records (nodes_of nodes.entry) (entries_of entries.entry) clock) e h (refusal_in result) }
{
    entry_refusal(nodes, entries, clock, e)?;
    if entries.generation[e] != h {
        return Err(Refusal::AnotherGeneration);
    }
    if !entries.dated[e] {
        return Err(Refusal::NoDeadline);
    }
    if clock.free == NONE {
        return Err(Refusal::NoFreeSlot);
    }
    if is_last(clock.serial) {
        return Err(Refusal::LastSerial);
    }
    Ok(())
}

// Reschedule, deschedule: 1, 4, 5, 12, 13.
pub fn handle_refusal(
    nodes: Nodes<'_>,
    entries: Entries<'_>,
    clock: Clock,
    handle: Handle,
    h: u32,
) -> Result<(), Refusal>
    ensures { RefusesHandle
        (records (nodes_of nodes.entry) (entries_of entries.entry) clock)
        handle.slot handle.serial h (refusal_in result) }
{
    closed_refusal(nodes, entries, clock)?;
    let links = nodes.linked;
    let slot = handle.slot;
    // absent, a sentinel, free, or of another serial
    if links.next.len() <= slot
        || slot < links.heads.len()
        || links.heads.len() <= links.home[slot]
        || nodes.serial[slot] != handle.serial
    {
        return Err(Refusal::StaleHandle);
    }
    if nodes.generation[slot] != h {
        return Err(Refusal::NotTheArmedGeneration);
    }
    Ok(())
}

// Enable, by numbers alone: 2, 3. It leaves out whether the slices of the node records are of one length.
pub fn around_refusal(
    enabled: bool,
    heads: usize,
    tails: usize,
    nodes: usize,
    dated: usize,
    deadline: usize,
    stamp: usize,
) -> Result<(), Refusal>
    ensures { RefusesAround enabled heads tails nodes dated deadline stamp (refusal_in result) }
{
    if enabled {
        return Err(Refusal::AlreadyEnabled);
    }
    let fits = ranged(BUCKETS, nodes, dated)
        && ends_lent(BUCKETS, heads, tails)
        && entries_lent(dated, dated, deadline, stamp);
    if !fits {
        return Err(Refusal::LengthsOutOfRange);
    }
    Ok(())
}

// Enable: 2, 3.
pub fn enable_refusal(nodes: Nodes<'_>, entries: Entries<'_>, clock: Clock) -> Result<(), Refusal>
    ensures { RefusesEnable (records (nodes_of nodes.entry) (entries_of entries.entry) clock) (refusal_in result) }
{
    let links = nodes.linked;
    around_refusal(
        clock.enabled,
        links.heads.len(),
        links.tails.len(),
        links.next.len(),
        entries.dated.len(),
        entries.deadline.len(),
        entries.generation.len(),
    )?;
    let fits = nodes_lent(
        links.next.len(),
        links.next.len(),
        links.prev.len(),
        links.home.len(),
        nodes.entry.len(),
        nodes.generation.len(),
        nodes.serial.len(),
    );
    if !fits {
        return Err(Refusal::LengthsOutOfRange);
    }
    Ok(())
}
