ghost use Rattle.std.specs.Prelude.{◌≡◌, ◌+◌, ◌<◌, ℕ, length, Some, IfOk};
ghost use Rattle.fj_trees.specs.Trees.{IsTree};
ghost use Rattle.fj_trees.specs.TreeValues.{children, node_at};
ghost use Rattle.fj_trees.specs.Families.{IsMember, child_from};

use crate::joining::{each_alone, join};
use crate::member::Member;
use crate::nodes::Nodes;
use fj_rules::OutOfMemory;
use std::alloc::Global;
use std::marker::Model;

/// A tree with links from each node to its first child and to its next sibling, so that a body finds its children without a walk over all
/// nodes. Java has no counterpart.
#[derive(Drop)]
pub struct Family {
    members: Vec<Member>,
}

impl Model for Family {
    ghost use Rattle.std.specs.Prelude.{List};
    ghost use Rattle.fj_trees.specs.declared.node.Node.{Node};
    ghost use Rattle.fj_trees.specs.Families.{IsFamily, nodes_of};

    ghost Value = { List Node };

    ghost view = { λ f. nodes_of f.members.items };

    ghost invariant = { λ f. IsFamily f.members.items };
}

impl Family {
    /// The family of a tree. `OutOfMemory` where an allocation fails.
    pub fn new(alloc: Global, nodes: &Nodes) -> Result<Family, OutOfMemory>
        ensures { IfOk result (λ family. family ≡ nodes.now) }
    {
        let mut members = each_alone(alloc, nodes.as_slice())?;
        join(&mut members);
        Ok(Family { members })
    }

    /// The node with this number. Precondition: there is one.
    fn member(&self, number: u32) -> Member
        requires { number < length self.now }
        ensures member { IsMember self.now number result }
        ensures tree { IsTree self.now }
    {
        self.members[number as usize]
    }

    /// How many children a node has. Precondition: there is such a node.
    pub fn children(&self, number: u32) -> u32
        requires { number < length self.now }
        ensures { result ≡ length (children self.now number) }
    {
        self.member(number).children
    }

    /// The first child of a node, if it has one. Precondition: there is such a node.
    pub fn first_child(&self, number: u32) -> Option<u32>
        requires { number < length self.now }
        ensures { result ≡ child_from self.now 0 number }
    {
        self.member(number).first
    }

    /// The next child of the parent of a node, if there is one. Precondition: there is such a node.
    pub fn next_sibling(&self, number: u32) -> Option<u32>
        requires { number < length self.now }
        ensures next { (p : ℕ) → (node_at self.now number).parent ≡ Some p → result ≡ child_from self.now (number + 1) p }
        ensures tree { IsTree self.now }
    {
        self.member(number).next
    }

    /// A node's own value. Precondition: there is such a node.
    pub fn own_value(&self, number: u32) -> u32
        requires { number < length self.now }
        ensures value { result ≡ (node_at self.now number).value }
        ensures tree { IsTree self.now }
    {
        self.member(number).node.value
    }
}
