// What a call over columns answers, in two: the answer without the clock, and the clock from now on, which is the
// caller's own where the call is refused. No `requires`.
ghost use Rattle.std.specs.Prelude.{◌≡◌};
ghost use Rattle.face_rules.specs.Turns.{Turns};
ghost use Rattle.wheel_rules.specs.Promise.{noted_says, timed_says, timed_clock};

use numbers::refusals::Refusal;
use wheel_rules::calls::{After, Clock};

pub fn after<A>(own: Clock, told: Result<After<A>, Refusal>) -> After<Result<A, Refusal>>
    ensures { Turns own told result }
{
    match told {
        Ok(done) => After {
            clock: done.clock,
            answer: Ok(done.answer),
        },
        Err(why) => After {
            clock: own,
            answer: Err(why),
        },
    }
}

// The same where the clock is all that is handed back.
pub fn timed(own: Clock, told: Result<Clock, Refusal>) -> After<Result<(), Refusal>>
    ensures says { noted_says result.answer ≡ timed_says told }
    ensures clock_is { result.clock ≡ timed_clock own told }
{
    after(own, told.map(|clock| After { clock, answer: () }))
}
