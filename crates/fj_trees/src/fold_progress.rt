use crate::child_sum::ChildSum;

/// The stage of a body that folds a node. Its task is kept as a plain number.
#[derive(Clone, Copy)]
pub(crate) enum FoldStage {
    /// Nothing yet.
    New,
    /// As this task, it raises its pending count.
    Adding(u64),
    /// As this task, it forks its children.
    Forking(u64),
    /// It has ended, and its completion action may come.
    Ended,
    /// In its completion action, it takes the results of its children.
    Taking,
}

/// How far a body that folds a node has come.
#[derive(Clone, Copy)]
pub(crate) struct FoldProgress {
    pub(crate) stage: FoldStage,
    /// The child that is forked next, if one is left.
    pub(crate) next: Option<u32>,
    /// The partial sum of the node's value.
    pub(crate) tally: ChildSum,
}
