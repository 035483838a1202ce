// The position of an advance from p to q, by level and step, and the next one. Levels from the last on are the last. No
// `requires`.
ghost use Rattle.std.specs.Prelude.{◌≡◌};
ghost use Rattle.rules.specs.Places.{wheel01};
ghost use Rattle.wheel_rules.specs.popping.Position.{onward};

pub use wheel_rules::popping::Position;
use wheel_timers::place::levels::level_count;
use wheel_timers::place::visits::visited;

// The position after the step-th bucket of the level: the next bucket of the level, or the first of the next level, if
// that visits any.
pub fn next_position(p: u64, q: u64, level: usize, step: usize) -> Option<Position>
    ensures { result ≡ onward wheel01 p q level step }
{
    if step < visited(level, p, q) {
        return Some(Position {
            level,
            step: step + 1,
        });
    }
    if level_count(level) == 1 {
        return None;
    }
    if 0 < visited(level + 1, p, q) {
        return Some(Position {
            level: level + 1,
            step: 1,
        });
    }
    None
}
