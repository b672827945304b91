use std::fmt;
use std::fmt::{Display, Formatter};

/// A node, by its number: from 0 on, in the order in which they were added.
#[derive(Clone, Copy, Debug, PartialEq, Eq)]
pub struct NodeId(pub u32);

impl Display for NodeId {
    fn fmt<W: fmt::Write>(&self, f: &mut Formatter<W>) -> fmt::Result {
        self.0.fmt(f)
    }
}

/// A node of a graph.
#[derive(Drop)]
pub(crate) struct Node {
    /// What it needs.
    pub(crate) inputs: Vec<NodeId>,
    /// What needs it: a hint for the frontier.
    pub(crate) users: Vec<NodeId>,
}
