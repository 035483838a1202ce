// The node that a number of the generator chooses.
ghost use Rattle.std.specs.Prelude.{◌<◌, ◌≤◌};

const HALF: u64 = 0x1_0000_0000;

// The node that the number x chooses out of so many: the upper half of x times the count, without its lower half.
pub fn chosen(x: u64, nodes: u64) -> usize
    requires { (0 < nodes) × (nodes ≤ 4096) }
    ensures { result < nodes }
{
    ((x / HALF) * nodes / HALF) as usize
}
