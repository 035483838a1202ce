// The workloads that change no link: the steps of a cursor, and the checked lengths. Each stands in a function of its
// own, so that the program around it takes none of its registers.
ghost use Rattle.std.specs.Prelude.{◌≤◌};
ghost use Rattle.bench.specs.Ready.{Ready};
ghost use Rattle.deque_alone.specs.Slices.{state_of};

use crate::deques::records::laid;
use deque_alone::Deques;

// So many steps of the cursor: the sum of the elements that they gave.
pub fn walk(n: usize, calls: u64, x: u64) -> u64
    requires { n ≤ 4096 }
{
    let Some(made) = laid(n, n, x) else {
        return 0;
    };
    let mut cursors = made.cursors;
    steps(made.as_read(n), &mut cursors, made.free, calls)
}

// The steps, over records that are laid out.
#[inline(never)]
fn steps(deques: Deques<'_>, cursors: &mut [usize], free: usize, calls: u64) -> u64
    requires { Ready (state_of deques cursors.old) free }
{
    let mut sum: u64 = 0;
    for _ in 0..calls {
        if let Some(node) = deques.step(cursors, free, 0) {
            sum = sum.wrapping_add(node.element);
        }
    }
    sum
}

// So many checked lengths: their sum.
#[inline(never)]
pub fn check(n: usize, calls: u64, x: u64) -> u64
    requires { n ≤ 4096 }
{
    let Some(made) = laid(n, n, x) else {
        return 0;
    };
    let deques = made.as_read(n);
    let mut sum: u64 = 0;
    for _ in 0..calls {
        if let Ok(length) = deques.length_of(&made.cursors, made.free, 0) {
            sum = sum.wrapping_add(length as u64);
        }
    }
    sum
}
