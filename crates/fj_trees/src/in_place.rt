ghost use Rattle.std.specs.Prelude.{◌≡◌, ◌<◌, length};
ghost use Rattle.fj_trees.specs.TreeValues.{node_value};

use crate::child_sum::ChildSum;
use crate::family::Family;

/// Computes the value of a node recursively, without a pool or allocation. It recurses as deep as the tree below the node. Precondition:
/// there is such a node.
pub(crate) fn value_in_place(family: &Family, node: u32) -> u64
    requires { node < length family.now }
    ensures { result ≡ node_value family.now node }
{
    let mut tally = ChildSum::new(family, node);
    while let Some(child) = tally.child {
        let value = value_in_place(family, child);
        tally = tally.add(family, child, value);
    }
    tally.sum
}
