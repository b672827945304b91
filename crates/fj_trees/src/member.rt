ghost use Rattle.std.specs.Prelude.{◌≡◌, ◌<◌};
ghost use Rattle.fj_trees.specs.Families.{alone, before_sibling, with_child};

use crate::node::Node;

/// A node of a tree, with links to its first child and its next sibling.
#[derive(Clone, Copy)]
pub(crate) struct Member {
    pub(crate) node: Node,
    /// How many children it has.
    pub(crate) children: u32,
    /// The first child.
    pub(crate) first: Option<u32>,
    /// The next child of its parent.
    pub(crate) next: Option<u32>,
}

impl Member {
    /// A node without links.
    pub(crate) fn alone(node: Node) -> Member
        ensures { result ≡ alone node }
    {
        Member {
            node,
            children: 0,
            first: None,
            next: None,
        }
    }

    /// The same, before this sibling.
    pub(crate) fn before(self, next: Option<u32>) -> Member
        ensures { result ≡ before_sibling self next }
    {
        Member { next, ..self }
    }

    /// The same, with this child before its others. Precondition: it has fewer than 4,000.
    pub(crate) fn with_child(self, child: u32) -> Member
        requires { self.children < 4000 }
        ensures { result ≡ with_child self child }
    {
        Member {
            first: Some(child),
            children: self.children + 1,
            ..self
        }
    }
}
