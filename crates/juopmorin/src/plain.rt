// The two functions that a host calls with plain numbers. Every number is answered. No `requires`.
ghost use Rattle.std.specs.Prelude.{◌≡◌};
ghost use Rattle.sketch_rules.specs.Sketch.{word_index};
ghost use Rattle.wheel_rules.specs.Promise.{Placed};

use sketch::word_index;
use wheel_timers::place::wheel_place;

// Where a deadline goes at a reading: level x 64 + index.
#[unsafe(no_mangle)]
pub extern "C" fn juop_place(reading: u64, deadline: u64) -> u64
    ensures { Placed reading deadline result }
{
    wheel_place(reading, deadline)
}

// The word of a hash at a depth, in a table of `mask` + 1 words; 65,536 where the depth is above 3 or `mask` + 1 is not
// a power of two up to 65,536.
#[unsafe(no_mangle)]
pub extern "C" fn juop_word_index(hash: u64, depth: u64, mask: u64) -> u64
    ensures { result ≡ word_index hash depth mask }
{
    word_index(hash, depth, mask)
}
