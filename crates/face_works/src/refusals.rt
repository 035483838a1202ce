// The refusal where more than 4,096 nodes are lent, to every call but enable: it rests on the clock alone. No
// `requires`.
ghost use Rattle.std.specs.Prelude.{◌≡◌};
ghost use Rattle.face_rules.specs.Crowded.{crowded_number};
ghost use Rattle.numbers.specs.Refusals.{number_of};

use numbers::refusals::Refusal;
use wheel_rules::calls::Clock;

// 1, 4.
pub fn crowded(clock: Clock) -> Refusal
    ensures { number_of result ≡ crowded_number clock }
{
    if clock.enabled {
        Refusal::NotSound
    } else {
        Refusal::NotEnabled
    }
}
