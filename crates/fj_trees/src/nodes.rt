ghost use Rattle.std.specs.Prelude.{◌≡◌, ◌<◌, length};

use crate::node::Node;
use std::marker::Model;

/// The nodes of a tree by their numbers, from 0 on: 1 to 4,000 of them. Only node 0 has no parent; that of each other node is an earlier
/// node. Values are at most 1,000,000,006.
#[derive(Drop)]
pub struct Nodes {
    nodes: Vec<Node>,
}

impl Model for Nodes {
    ghost use Rattle.std.specs.Prelude.{List};
    ghost use Rattle.fj_trees.specs.declared.node.Node.{Node};
    ghost use Rattle.fj_trees.specs.Trees.{IsTree};

    ghost Value = { List Node };

    ghost view = { λ t. t.nodes.items };

    ghost invariant = { λ t. IsTree t.nodes.items };
}

impl Nodes {
    ghost use Rattle.fj_trees.specs.Trees.{IsNodeAt, IsTree};
    ghost use Rattle.fj_trees.specs.TreeValues.{node_at};

    /// The tree of these nodes. Precondition: they are a tree.
    pub(crate) fn new(nodes: Vec<Node>) -> Nodes
        requires { IsTree nodes.items }
        ensures { result ≡ nodes.items }
    {
        Nodes { nodes }
    }

    /// The nodes, in the order of their numbers.
    pub fn as_slice(&self) -> &[Node]
        ensures nodes { result.now ≡ self.now }
        ensures tree { IsTree self.now }
    {
        self.nodes.as_slice()
    }

    /// The node with this number. Precondition: there is one.
    pub fn node(&self, number: usize) -> Node
        requires { number < length self.now }
        ensures node { result ≡ node_at self.now number }
        ensures good { IsNodeAt number result }
    {
        let nodes = self.as_slice();
        nodes[number]
    }
}
