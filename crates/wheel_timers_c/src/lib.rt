// The host's function of the wheel's timers as a static library: where a deadline goes at a reading, by the C calling
// convention. It calls the function of the same name in the crate `wheel_timers` and promises the same. No `requires`.
#![tactic(auto)]

ghost use Rattle.wheel_rules.specs.Promise.{Placed};

// The host's function: level x 64 + index.
#[unsafe(no_mangle)]
pub extern "C" fn wheel_place(reading: u64, deadline: u64) -> u64
    ensures { Placed reading deadline result }
{
    wheel_timers::place::wheel_place(reading, deadline)
}
