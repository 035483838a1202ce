// The work of enable, over what is lent beside the nodes: the nodes themselves are laid out in place where it is done.
// No `requires`.
ghost use Rattle.std.specs.Prelude.{is_ok};
ghost use Rattle.face_rules.specs.Works.{Enabled};
ghost use Rattle.wheel_rules.specs.Promise.{noted_says};
ghost use Rattle.wheel_timers.specs.Slices.{entries_now, SameEntries};

use numbers::refusals::Refusal;
use wheel_refusals::around_refusal;
use wheel_rules::calls::{After, Clock};
use wheel_timers::around::lay_out_around;
use wheel_timers::lent::EntriesMut;

// Enable over n nodes: sentinels placed, the other slots free, each entry without a deadline, whatever the records
// held. Refuses (2, 3).
pub fn enable_work(
    n: usize,
    clock: Clock,
    heads: &mut [usize],
    tails: &mut [usize],
    entries: &mut EntriesMut<'_>,
) -> After<Result<(), Refusal>>
    ensures does { Enabled
        n clock result.clock heads.old tails.old heads.new tails.new (entries_now entries.old)
        (entries_now entries.new) (is_ok result.answer) (noted_says result.answer) }
    ensures same { SameEntries entries.old entries.new }
{
    match around_refusal(
        clock.enabled,
        heads.len(),
        tails.len(),
        n,
        entries.dated.len(),
        entries.deadline.len(),
        entries.generation.len(),
    ) {
        Ok(()) => After {
            clock: lay_out_around(heads, tails, entries, n, clock),
            answer: Ok(()),
        },
        Err(why) => After {
            clock,
            answer: Err(why),
        },
    }
}
