use fj_nodes::NodeId;
use fj_run::Refusal;
use thiserror::Error;

/// Why a graph was not run to its end.
#[derive(Clone, Copy, Debug, PartialEq, Error)]
pub enum GraphRefused {
    /// It has a cycle: this node is on one, or needs a node that is, however far away. Nothing was called.
    #[error("a cycle at node {0}")]
    Cycle(NodeId),
    /// The pool refused: `OutOfMemory` where an allocation fails or a thread cannot be started, `LogFull` where the pool got stuck. What
    /// was begun was run to its end; its fate is not reported.
    #[error("{0}")]
    Refused(Refusal),
}
