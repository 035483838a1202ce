// For proved code only, unchecked: the parts of making that the links do not lay out.
ghost use Rattle.std.specs.Prelude.{◌≡◌, length, replicate};
ghost use Rattle.deque_rules.specs.alone.Work.{Clears};

use crate::NONE;

// Every length 0 and every cursor at none.
pub fn clear(lens: &mut [usize], cursors: &mut [usize])
    requires { length cursors.old ≡ length lens.old }
    ensures { Clears lens.old lens.new cursors.new }
{
    lens.fill(0);
    cursors.fill(NONE);
}

// Every element 0.
pub fn zero(element: &mut [u64])
    ensures { element.new ≡ replicate (length element.old) 0 }
{
    element.fill(0);
}
