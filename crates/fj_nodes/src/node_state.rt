use crate::fate::Fate;

/// How far a node has come.
#[derive(Clone, Copy, Debug, PartialEq)]
pub(crate) enum NodeState {
    Waiting,
    UnderWay,
    Ended(Fate),
}
