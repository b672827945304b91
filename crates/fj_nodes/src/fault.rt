use crate::node::NodeId;
use thiserror::Error;

/// Why a graph does not grow.
#[derive(Clone, Copy, Debug, PartialEq, Error)]
pub enum GraphFault {
    /// There is no such node.
    #[error("no node {0}")]
    Missing(NodeId),
    /// An allocation failed, or there is no number left for one more node.
    #[error("out of memory")]
    OutOfMemory,
}
