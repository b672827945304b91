use crate::graph::Graph;
use crate::node::NodeId;
use std::alloc::{AllocError, Global};
use std::collections::VecDeque;

/// Which nodes to look at next: those whose inputs are all done, by their counts. Nothing is proved of it, so the inputs of a node that is
/// taken are checked again.
#[derive(Drop)]
pub struct Frontier {
    /// How many inputs each node still waits for.
    waits: Vec<usize>,
    ready: VecDeque<NodeId>,
}

impl Frontier {
    /// The nodes without inputs. There is room for all nodes. `AllocError` where out of memory.
    pub fn new(alloc: Global, graph: &Graph) -> Result<Frontier, AllocError> {
        let mut waits = Vec::with_capacity(alloc, graph.len())?;
        let mut ready = VecDeque::with_capacity(alloc, graph.len())?;
        for number in 0..graph.count() {
            let node = NodeId(number);
            let inputs = graph.inputs(node).len();
            if waits.push(inputs).is_err() || (inputs == 0 && ready.push_back(node).is_err()) {
                return Err(AllocError);
            }
        }
        Ok(Frontier { waits, ready })
    }

    /// Takes the next node, if there is one.
    pub fn take(&mut self) -> Option<NodeId> {
        self.ready.pop_front()
    }

    /// Makes this node the next one. `AllocError` where out of memory.
    pub fn put_back(&mut self, node: NodeId) -> Result<(), AllocError> {
        match self.ready.push_front(node) {
            Ok(()) => Ok(()),
            Err(_) => Err(AllocError),
        }
    }

    /// Whether there is a next node.
    pub fn has_next(&self) -> bool {
        !self.ready.is_empty()
    }

    /// A node is done: each node that needs it waits for one input fewer, and is ready after the last one. `AllocError` where out of
    /// memory.
    pub fn done(&mut self, graph: &Graph, node: NodeId) -> Result<(), AllocError> {
        for user in graph.users(node) {
            if self.arrive(*user) && self.ready.push_back(*user).is_err() {
                return Err(AllocError);
            }
        }
        Ok(())
    }

    /// A node waits for one input fewer. True where that was the last one.
    fn arrive(&mut self, node: NodeId) -> bool {
        match self.waits.get_mut(node.0 as usize) {
            Some(waits) => {
                *waits = waits.saturating_sub(1);
                *waits == 0
            }
            None => false,
        }
    }
}
