// The work of the calls that write nodes: schedule, reschedule, deschedule, pull. No `requires`.
ghost use Rattle.std.specs.Prelude.{◌≤◌};
ghost use Rattle.rules.specs.Wheel.{Answer, Call, ok, schedule, reschedule, deschedule, pull};
ghost use Rattle.face_rules.specs.Crowded.{OfOne};
ghost use Rattle.face_rules.specs.Works.{Stored, slots};
ghost use Rattle.face_rules.specs.nodes.Columns.{columns, front};
ghost use Rattle.nodes.specs.Held.{held};
ghost use Rattle.wheel_rules.specs.Lent.{records};
ghost use Rattle.wheel_rules.specs.Promise.{Promised, clock_after, handle_told, rescheduled_told, says, told};
ghost use Rattle.wheel_timers.specs.Slices.{entries_of, nodes_now, SameNodes};
ghost use Rattle.deque.specs.Slices.{SameSlices};
ghost use Rattle.face_works.specs.Slots.{slots_now, SamePayload};

use crate::answers::after;
use crate::refusals::crowded;
use deque::linked::LinkedMut;
use nodes::{Columns, ROOM};
use numbers::refusals::Refusal;
use std::mem;
use wheel_rules::calls::{After, Clock, Event, Handle, Rescheduled};
use wheel_timers::lent::{Entries, NodesMut};

// A call that writes slots, with what it is told of its answer's value.
pub trait Writing {
    type Value;

    ghost call: { Self → Call };

    ghost told: { Self.Value → Answer };

    fn run(
        self,
        slots: &mut NodesMut<'_>,
        entries: Entries<'_>,
        clock: Clock,
    ) -> Result<After<Self::Value>, Refusal>
        ensures does { Promised (call self) (records (nodes_now slots.old) (entries_of entries.entry) clock)
            (records (nodes_now slots.new) (entries_of entries.entry) (clock_after clock result))
            (says (λ r. told r.answer) result) }
        ensures same { SameNodes slots.old slots.new };

    ghost of_one: { (w : Self) → OfOne (call w) };
}

// A new node for the entry e, whose generation is h. Refuses (1, 4, 5, 7 to 11).
#[derive(Clone, Copy)]
pub struct Schedule {
    pub e: usize,
    pub h: u32,
}

impl Writing for Schedule {
    type Value = Handle;

    ghost call = { λ s. schedule s.e s.h };

    ghost told = { handle_told };

    ghost of_one = { λ w. tt };

    fn run(
        self,
        slots: &mut NodesMut<'_>,
        entries: Entries<'_>,
        clock: Clock,
    ) -> Result<After<Handle>, Refusal> {
        wheel::schedule(slots, entries, clock, self.e, self.h)
    }
}

// Moves the timer with the handle, armed with the generation h, or removes it. Refuses (1, 4, 5, 12, 13).
#[derive(Clone, Copy)]
pub struct Reschedule {
    pub handle: Handle,
    pub h: u32,
}

impl Writing for Reschedule {
    type Value = Rescheduled;

    ghost call = { λ s. reschedule s.handle.slot s.handle.serial s.h };

    ghost told = { rescheduled_told };

    ghost of_one = { λ w. tt };

    fn run(
        self,
        slots: &mut NodesMut<'_>,
        entries: Entries<'_>,
        clock: Clock,
    ) -> Result<After<Rescheduled>, Refusal> {
        wheel::reschedule(slots, entries, clock, self.handle, self.h)
    }
}

// Unlinks and frees the timer with the handle, armed with the generation h. Refuses (1, 4, 5, 12, 13).
#[derive(Clone, Copy)]
pub struct Deschedule {
    pub handle: Handle,
    pub h: u32,
}

impl Writing for Deschedule {
    type Value = ();

    ghost call = { λ s. deschedule s.handle.slot s.handle.serial s.h };

    ghost told = { λ u. ok };

    ghost of_one = { λ w. tt };

    fn run(
        self,
        slots: &mut NodesMut<'_>,
        entries: Entries<'_>,
        clock: Clock,
    ) -> Result<After<()>, Refusal> {
        let clock = wheel::deschedule(slots, entries, clock, self.handle, self.h)?;
        Ok(After { clock, answer: () })
    }
}

// One event of the open advance, or End. Refuses (1, 4, 6).
#[derive(Clone, Copy)]
pub struct Pull;

impl Writing for Pull {
    type Value = Event;

    ghost call = { λ s. pull };

    ghost told = { told };

    ghost of_one = { λ w. tt };

    fn run(
        self,
        slots: &mut NodesMut<'_>,
        entries: Entries<'_>,
        clock: Clock,
    ) -> Result<After<Event>, Refusal> {
        wheel::pull(slots, entries, clock)
    }
}

// What slots have beside their links.
#[derive(Drop)]
pub struct PayloadMut<'a> {
    pub entry: &'a mut [usize],
    pub generation: &'a mut [u32],
    pub serial: &'a mut [u64],
}

// The call on slots that are lent as two values, and taken out of them meanwhile.
fn on_slots<'a, W: Writing>(
    linked: &mut LinkedMut<'a>,
    payload: &mut PayloadMut<'a>,
    entries: Entries<'_>,
    clock: Clock,
    call: W,
) -> Result<After<W::Value>, Refusal>
    ensures does { Promised (W.call call) (records (slots_now linked.old payload.old) (entries_of entries.entry) clock)
        (records (slots_now linked.new payload.new) (entries_of entries.entry) (clock_after clock result))
        (says (λ r. W.told r.answer) result) }
    ensures same_links { SameSlices linked.old linked.new }
    ensures same_payload { SamePayload payload.old payload.new }
{
    let no_links = LinkedMut {
        heads: &mut [],
        tails: &mut [],
        next: &mut [],
        prev: &mut [],
        home: &mut [],
    };
    let no_payload = PayloadMut {
        entry: &mut [],
        generation: &mut [],
        serial: &mut [],
    };
    let PayloadMut {
        entry,
        generation,
        serial,
    } = mem::replace(payload, no_payload);
    let mut slots = NodesMut {
        linked: mem::replace(linked, no_links),
        entry,
        generation,
        serial,
    };
    let told = call.run(&mut slots, entries, clock);
    let NodesMut {
        linked: links,
        entry,
        generation,
        serial,
    } = slots;
    *linked = links;
    *payload = PayloadMut {
        entry,
        generation,
        serial,
    };
    told
}

// The call on slots that lie in these slices.
fn on_slices<W: Writing>(
    heads: &mut [usize],
    tails: &mut [usize],
    next: &mut [usize],
    prev: &mut [usize],
    bucket: &mut [usize],
    entry: &mut [usize],
    generation: &mut [u32],
    serial: &mut [u64],
    entries: Entries<'_>,
    clock: Clock,
    call: W,
) -> Result<After<W::Value>, Refusal>
    ensures { let old = columns next.old prev.old bucket.old entry.old generation.old serial.old in
        let new = columns next.new prev.new bucket.new entry.new generation.new serial.new in
        Promised (W.call call) (records (slots heads.old tails.old old) (entries_of entries.entry) clock)
        (records (slots heads.new tails.new new) (entries_of entries.entry) (clock_after clock result))
        (says (λ r. W.told r.answer) result) }
{
    let mut linked = LinkedMut {
        heads,
        tails,
        next,
        prev,
        home: bucket,
    };
    let mut payload = PayloadMut {
        entry,
        generation,
        serial,
    };
    on_slots(&mut linked, &mut payload, entries, clock, call)
}

// The call on the first n places of each column.
fn on_fronts<W: Writing>(
    heads: &mut [usize],
    tails: &mut [usize],
    next: &mut [usize; ROOM],
    prev: &mut [usize; ROOM],
    bucket: &mut [usize; ROOM],
    entry: &mut [usize; ROOM],
    generation: &mut [u32; ROOM],
    serial: &mut [u64; ROOM],
    n: usize,
    entries: Entries<'_>,
    clock: Clock,
    call: W,
) -> Result<After<W::Value>, Refusal>
    requires { n ≤ 4096 }
    ensures { let old = columns next.old prev.old bucket.old entry.old generation.old serial.old in
        let new = columns next.new prev.new bucket.new entry.new generation.new serial.new in
        Promised (W.call call) (records (slots heads.old tails.old (front n old)) (entries_of entries.entry) clock)
        (records (slots heads.new tails.new (front n new)) (entries_of entries.entry) (clock_after clock result))
        (says (λ r. W.told r.answer) result) }
{
    on_slices(
        heads,
        tails,
        &mut next[..n],
        &mut prev[..n],
        &mut bucket[..n],
        &mut entry[..n],
        &mut generation[..n],
        &mut serial[..n],
        entries,
        clock,
        call,
    )
}

// The call on n lent nodes that were read into the columns, which are to be stored back.
pub fn stored<W: Writing + Drop>(
    columns: &mut Columns,
    n: usize,
    clock: Clock,
    heads: &mut [usize],
    tails: &mut [usize],
    entries: Entries<'_>,
    call: W,
) -> After<Result<W::Value, Refusal>>
    ensures { Stored (W.call call)
        (held columns.old) (held columns.new) n clock result.clock heads.old tails.old heads.new tails.new
        (entries_of entries.entry) (says W.told result.answer) }
{
    if 4096 < n {
        return After {
            clock,
            answer: Err(crowded(clock)),
        };
    }
    let told = on_fronts(
        heads,
        tails,
        &mut columns.next,
        &mut columns.prev,
        &mut columns.bucket,
        &mut columns.entry,
        &mut columns.generation,
        &mut columns.serial,
        n,
        entries,
        clock,
        call,
    );
    after(clock, told)
}
