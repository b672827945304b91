use crate::node_call::NodeCall;
use crate::policy::Policy;
use crate::stop_flag::StopFlag;
use fj_nodes::NodeId;

/// What all bodies of a run share.
#[derive(Drop)]
pub(crate) struct Calls<'a, W> {
    pub(crate) work: &'a W,
    /// The flag of the caller of the run.
    pub(crate) stop: &'a StopFlag,
    /// The flag of this run, which a failure sets.
    pub(crate) own: &'a StopFlag,
    pub(crate) policy: Policy,
}

impl<'a, W> Calls<'a, W> {
    /// Whether nothing more is to be called.
    pub(crate) fn is_stopped(&self) -> bool {
        self.stop.is_stopped() || self.own.is_stopped()
    }

    /// The body of a node.
    pub(crate) fn call(&self, node: NodeId) -> NodeCall<'a, W> {
        NodeCall {
            node,
            calls: Calls {
                work: self.work,
                stop: self.stop,
                own: self.own,
                policy: self.policy,
            },
            owned: None,
        }
    }
}
