// The first n of each column, lent as the slots of a wheel with the heads and tails of its buckets. For proved code
// only, unchecked: n is at most 4,096.
ghost use Rattle.std.specs.Prelude.{◌≡◌, ◌≤◌};
ghost use Rattle.face_rules.specs.Works.{slots};
ghost use Rattle.face_rules.specs.nodes.Columns.{front};
ghost use Rattle.nodes.specs.Held.{held};
ghost use Rattle.wheel_timers.specs.Slices.{nodes_of};

use deque::linked::Linked;
use nodes::Columns;
use wheel_timers::lent::Nodes;

pub fn read<'a>(columns: &'a Columns, n: usize, heads: &'a [usize], tails: &'a [usize]) -> Nodes<'a>
    requires { n ≤ 4096 }
    ensures { nodes_of result ≡ slots heads.now tails.now (front n (held columns.now)) }
{
    Nodes {
        linked: Linked {
            heads,
            tails,
            next: &columns.next[..n],
            prev: &columns.prev[..n],
            home: &columns.bucket[..n],
        },
        entry: &columns.entry[..n],
        generation: &columns.generation[..n],
        serial: &columns.serial[..n],
    }
}
