// Create. No `requires`.
ghost use Rattle.rules.specs.Wheel.{ok};
ghost use Rattle.wheel_rules.specs.Promise.{Begins};

use deque::NONE;
use wheel_rules::calls::{Clock, Created};

// Begins a wheel with this first serial: reading 0, not enabled, no slot in any bucket. Nodes and entries stay as
// found. Never refused.
pub fn create(first: u64) -> Created
    ensures { Begins first result.clock result.heads result.tails ok }
{
    let clock = Clock {
        enabled: false,
        reading: 0,
        serial: first,
        open: false,
        previous: 0,
        level: 0,
        step: 0,
        free: NONE,
        nodes: 0,
        entries: 0,
    };
    let heads = [NONE; 165];
    let tails = [NONE; 165];
    Created {
        clock,
        heads,
        tails,
    }
}
