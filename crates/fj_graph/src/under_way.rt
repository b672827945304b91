ghost use Rattle.std.specs.Prelude.{◌≡◌, ◌+◌, ◌<◌, IfSome, IfNone, OnOk, vec_capacity, vec_len};

use fj_nodes::NodeId;
use fj_run::{Body, Naming, Outcome, Refusal, Running, Ticket};
use std::alloc::{AllocError, Global};
use std::sync::Wait;

/// Tickets, and beside each the node of its body, the oldest first.
#[derive(Drop)]
pub(crate) struct UnderWay {
    pub(crate) tickets: Vec<Ticket>,
    nodes: Vec<NodeId>,
    ghost beside: { vec_len nodes ≡ vec_len tickets },
}

impl UnderWay {
    /// Nothing is under way, with room for so many. `AllocError` where out of memory.
    pub(crate) fn new(alloc: Global, window: usize) -> Result<UnderWay, AllocError> {
        Ok(UnderWay {
            tickets: Vec::with_capacity(alloc, window)?,
            nodes: Vec::with_capacity(alloc, window)?,
        })
    }

    /// How many there are.
    pub(crate) fn len(&self) -> usize {
        self.tickets.len()
    }

    /// Adds a body. `AllocError` where out of memory, and then nothing changes.
    pub(crate) fn push(&mut self, ticket: Ticket, node: NodeId) -> Result<(), AllocError> {
        self.tickets.reserve(1)?;
        self.nodes.reserve(1)?;
        self.tickets.push_reserved(ticket);
        self.nodes.push_reserved(node);
        Ok(())
    }

    /// Waits for the first outcome. None where nothing is under way.
    pub(crate) fn wait<B: Body, N: Naming, R: Wait>(
        &mut self,
        pool: &mut Running<'_, '_, B, N, R>,
    ) -> Option<(NodeId, Result<Outcome<B>, Refusal>)> {
        let (place, outcome) = pool.await_any(self.tickets.as_slice())?;
        self.tickets.remove(place);
        Some((self.nodes.remove(place), outcome))
    }
}
