// The soundness test of a sketch's record against a lent table of some length.
ghost use Rattle.std.specs.Prelude.{◌≡◌};
ghost use Rattle.sketch_rules.specs.Sketch.{sound};

use sketch_rules::Sketch;

// Whether the record is sound. A power of two L is what a capacity c gives just where L / 2 < c and c <= L.
// Tests one by one: with one condition of `&&` in their place a loop of increases runs some 2 to 3 % more instructions.
pub fn is_sound(lent: usize, sketch: Sketch) -> bool
    ensures { result ≡ sound lent sketch }
{
    let Sketch { used, sample, size } = sketch;
    if used == 0 {
        return sample == 0 && size == 0;
    }
    if lent < used {
        return false;
    }
    if !numbers::is_power(used as u64) {
        return false;
    }
    let capacity = sample / 10;
    if sample % 10 != 0 {
        return false;
    }
    if capacity <= used as u64 / 2 {
        return false;
    }
    if capacity > used as u64 {
        return false;
    }
    size < sample
}
