// The lent nodes as enabling lays them out, written in place: nothing is read of them. For proved code only, unchecked:
// more of them than a wheel may have are written too.
ghost use Rattle.std.specs.Prelude.{◌≡◌, ◌<◌};
ghost use Rattle.face_rules.specs.nodes.Laid.{laid_node, Laid};
ghost use Rattle.rules.specs.Places.{wheel01, buckets};

use deque::NONE;
use face_rules::Node;
use wheel_refusals::BUCKETS;

// The slot i of n: a sentinel, alone in the bucket of its number; or free, before the one above it.
fn laid_node(i: usize, n: usize) -> Node
    requires { i < n }
    ensures { result ≡ laid_node (buckets wheel01) n i }
{
    let mut node = Node {
        next: NONE,
        prev: NONE,
        bucket: NONE,
        entry: 0,
        generation: 0,
        serial: 0,
    };
    if i < BUCKETS {
        node.bucket = i;
    } else if i + 1 < n {
        node.next = i + 1;
    }
    node
}

// Lays the nodes out, or leaves them.
pub fn lay(nodes: &mut [Node], on: bool)
    ensures { Laid nodes.old on nodes.new }
{
    if !on {
        return;
    }
    let n = nodes.len();
    for (i, node) in nodes.iter_mut().enumerate() {
        *node = laid_node(i, n);
    }
}
