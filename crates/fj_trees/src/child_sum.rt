ghost use Rattle.std.specs.Prelude.{◌≡◌, ◌+◌, ◌<◌, length, Some, None};
ghost use Rattle.fj_trees.specs.Trees.{IsTree};
ghost use Rattle.fj_trees.specs.TreeValues.{node_value};
ghost use Rattle.fj_trees.specs.Families.{child_from};
ghost use Rattle.fj_trees.specs.Tallies.{IsTally, numbers_from};

use crate::family::Family;

/// The modulus of all values.
const MODULUS: u64 = 1_000_000_007;

/// A partial sum of the value of a node.
#[derive(Clone, Copy)]
pub(crate) struct ChildSum {
    pub(crate) node: u32,
    /// The next child to add, if one is left.
    pub(crate) child: Option<u32>,
    /// The factor of its value: 1 for the first child, 2 for the second.
    pub(crate) weight: u32,
    /// The node's own value and the weighted values of the children before, modulo 1,000,000,007.
    pub(crate) sum: u64,
}

impl ChildSum {
    /// The sum of a node's own value alone. Precondition: there is such a node.
    pub(crate) fn new(family: &Family, node: u32) -> ChildSum
        requires { node < length family.now }
        ensures tally { IsTally family.now result }
        ensures node { result.node ≡ node }
        ensures child { result.child ≡ child_from family.now 0 node }
        ensures weight { result.weight ≡ 1 }
        ensures tree { IsTree family.now }
    {
        ChildSum {
            node,
            child: family.first_child(node),
            weight: 1,
            sum: u64::from(family.own_value(node)),
        }
    }

    /// Adds the value of the next child. Preconditions: `child` is the next one, and `value` its value.
    pub(crate) fn add(self, family: &Family, child: u32, value: u64) -> ChildSum
        requires tally { IsTally family.now self }
        requires child { self.child ≡ Some child }
        requires value { value ≡ node_value family.now child }
        ensures tally { IsTally family.now result }
        ensures node { result.node ≡ self.node }
        ensures child { result.child ≡ child_from family.now (child + 1) self.node }
        ensures weight { result.weight ≡ self.weight + 1 }
        ensures nearer { numbers_from (length family.now) result.child < numbers_from (length family.now) self.child }
    {
        ChildSum {
            node: self.node,
            child: family.next_sibling(child),
            weight: self.weight + 1,
            sum: (self.sum + u64::from(self.weight) * value) % MODULUS,
        }
    }
}
