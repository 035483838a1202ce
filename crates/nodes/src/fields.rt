// One field of a block of nodes, read into its part of a column, so that a column is written as one stream. For load
// alone, unchecked.
ghost use Rattle.std.specs.Prelude.{◌≡◌, length, map};
ghost use Rattle.std.specs.Fn.{FnReturnsAt};
ghost use Rattle.face_rules.specs.declared.Node.{Node};

use face_rules::Node;

pub fn read<T: Copy, F: Fn(&Node) -> T>(block: &[Node], part: &mut [T], field: F)
    ghost value: { Node → T }
    requires callable { F.IsAlwaysCallable field }
    requires gives { (v : Node) (x : T) → FnReturnsAt F.Fn field v x → x ≡ value v }
    requires as_long { length part.old ≡ length block.now }
    ensures { part.new ≡ map value block.now }
{
    for (i, node) in block.iter().enumerate() {
        part[i] = field(node);
    }
}
