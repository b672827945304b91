use crate::fate::Fate;
use crate::node::NodeId;

/// A step of a run.
#[derive(Clone, Copy, Debug, PartialEq)]
pub enum GraphStep {
    /// The body that calls the work of this node was handed to the pool.
    Begun(NodeId),
    /// The fate of this node was reported.
    Ended(NodeId, Fate),
}
