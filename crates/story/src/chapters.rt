// The chapters of the story: what is called, and what is expected of each answer. Unchecked: a chapter asks that the
// story has come that far.
ghost use Rattle.story.specs.Held.{held};
ghost use Rattle.story.specs.Story.{Reached, begun, Watched, cancelled, abandoned, too_early, stepped_back, handed_out};

use crate::answers::{is_count, is_end, is_expired, is_handle, is_moved, is_noted, is_refused};
use crate::held::Held;
use face::{Handle, Refusal};

// 2^30 nanoseconds.
const TICK: u64 = 1073741824;

// The deadline of the timer that the story is about.
const DUE: u64 = TICK + 5;

// The handle of the other timer.
const OTHER: Handle = Handle {
    slot: 166,
    serial: 8,
};

// A wheel whose serials begin at 7, enabled.
pub fn begin() -> Held
    ensures { Reached begun (held result) }
{
    let mut s = Held::create(7);
    check::expect(is_noted(s.enable()));
    s
}

// The timer is armed: the first free slot, the first serial. From here on demand 3 holds of it.
pub fn arm(s: &mut Held)
    requires { Reached begun (held s.old) }
    ensures { Watched (held s.new) }
{
    check::expect(is_noted(s.set(0, DUE, 1)));
    check::expect(is_handle(s.schedule(0, 1), 165, 7));
}

// Another timer is armed and cancelled; to cancel it once more is refused, since its handle is stale.
pub fn cancel_another(s: &mut Held)
    requires { Watched (held s.old) }
    ensures { Reached cancelled (held s.new) }
{
    check::expect(is_noted(s.set(1, 64 * TICK, 3)));
    check::expect(is_handle(s.schedule(1, 3), 166, 8));
    check::expect(is_noted(s.deschedule(OTHER, 3)));
    check::expect(is_refused(s.deschedule(OTHER, 3), Refusal::StaleHandle));
}

// An advance far beyond the deadline is abandoned before anything is read of it: the reading is 0 again.
pub fn abandon_one(s: &mut Held)
    requires { Reached cancelled (held s.old) }
    ensures { Reached abandoned (held s.new) }
{
    check::expect(is_noted(s.start(2 * TICK)));
    check::expect(is_noted(s.abandon()));
    check::expect(s.clock.reading == 0);
}

// An advance to just before the deadline, in its tick, is read to its end: the timer is placed anew and not handed out.
pub fn come_too_early(s: &mut Held)
    requires { Reached abandoned (held s.old) }
    ensures { Reached too_early (held s.new) }
{
    check::expect(is_noted(s.start(DUE - 1)));
    check::expect(is_moved(s.pull(), 0, 7, 1));
    check::expect(is_end(s.pull()));
}

// The clock is stepped back to 5: nothing is handed out.
pub fn step_back(s: &mut Held)
    requires { Reached too_early (held s.old) }
    ensures { Reached stepped_back (held s.new) }
{
    check::expect(is_noted(s.start(5)));
    check::expect(is_end(s.pull()));
    check::expect(s.clock.reading == 5);
}

// An advance into a later tick than the deadline's hands the timer out, once.
pub fn hand_out(s: &mut Held)
    requires { Reached stepped_back (held s.old) }
    ensures { Reached handed_out (held s.new) }
{
    check::expect(is_noted(s.start(2 * TICK)));
    check::expect(is_expired(s.pull(), 0, 7, DUE));
    check::expect(is_end(s.pull()));
}

// No timer is armed any more.
pub fn count_none(s: &Held)
    requires { Reached handed_out (held s.now) }
{
    check::expect(is_count(s.armed_count(), 0));
}
