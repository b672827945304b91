//! Whether a graph has a cycle: its nodes get ranks, and then each is compared with its inputs, so the ranks need not be trusted. Where they
//! tell of a cycle, it is walked.
ghost use Rattle.std.specs.Prelude.{◌≡◌, ◌<◌, IfNone, IfOk, IfSome, length, ltb, slice_index, true};
ghost use Rattle.std.specs.List.{list_all};
ghost use Rattle.fj_nodes.specs.Graphs.{HasInput, IsAbove, IsAcyclic, IsOnCycle, LeadsTo, NeedsCycle};

use crate::frontier::Frontier;
use crate::graph::Graph;
use crate::node::NodeId;
use std::alloc::{AllocError, Global};

impl Graph {
    /// Looks for a cycle: a node that is on one, or that needs a node on one, however far away. None where there is none, and then the
    /// graph can be run. `AllocError` where out of memory.
    pub fn cycle(&self, alloc: Global) -> Result<Option<NodeId>, AllocError>
        ensures none { IfOk result (λ found. IfNone found (IsAcyclic self.now)) }
        ensures some { IfOk result (λ found. IfSome found (λ node. node.0 < length self.now)) }
        ensures cycle { IfOk result (λ found. IfSome found (λ node. NeedsCycle self.now node.0)) }
    {
        let ranks = self.ranks(alloc)?;
        for number in 0..self.count() {
            let node = NodeId(number);
            if !self.is_above_inputs(ranks.as_slice(), node) {
                return if self.needs_cycle(ranks.as_slice(), node) {
                    Ok(Some(node))
                } else {
                    Err(AllocError)
                };
            }
        }
        Ok(None)
    }

    /// Whether steps from a node lead to a cycle. They do from each that is not above its inputs: it has the greatest rank, and so has an
    /// input of it.
    fn needs_cycle(&self, ranks: &[u32], node: NodeId) -> bool
        ensures { result ≡ true → NeedsCycle self.now node.0 }
    {
        match self.far(ranks, node) {
            Some(far) => self.is_on_cycle(ranks, far),
            None => false,
        }
    }

    /// The node to which as many steps lead as there are nodes, each to the first input that has no lower rank. None where there is none.
    fn far(&self, ranks: &[u32], node: NodeId) -> Option<NodeId>
        ensures { IfSome result (λ far. LeadsTo self.now node.0 far.0) }
    {
        let mut at = node;
        for _step in 0..self.count() {
            match self.no_lower(ranks, at) {
                Some(input) => at = input,
                None => return None,
            }
        }
        Some(at)
    }

    /// Whether such steps lead from a node back to it.
    fn is_on_cycle(&self, ranks: &[u32], node: NodeId) -> bool
        ensures { result ≡ true → IsOnCycle self.now node.0 }
    {
        let mut at = node;
        for _step in 0..self.count() {
            match self.no_lower(ranks, at) {
                Some(input) if input == node => return true,
                Some(input) => at = input,
                None => return false,
            }
        }
        false
    }

    /// The first input of a node that has no lower rank than the node.
    fn no_lower(&self, ranks: &[u32], node: NodeId) -> Option<NodeId>
        ensures { IfSome result (λ input. HasInput self.now node.0 input.0) }
    {
        let inputs = self.inputs(node);
        let rank = rank_of(ranks, node);
        for place in 0..inputs.len() {
            if rank_of(ranks, inputs[place]) >= rank {
                return Some(inputs[place]);
            }
        }
        None
    }

    /// The rank of each node: above those of its inputs. The greatest rank where it is on a cycle or needs a node on one.
    fn ranks(&self, alloc: Global) -> Result<Vec<u32>, AllocError> {
        let mut ranks: Vec<u32> = vec![in alloc; u32::MAX; self.len()]?;
        let mut frontier = Frontier::new(alloc, self)?;
        for rank in 0..u32::MAX {
            let Some(node) = frontier.take() else {
                break;
            };
            if let Some(place) = ranks.get_mut(node.0 as usize) {
                *place = rank;
            }
            frontier.done(self, node)?;
        }
        Ok(ranks)
    }

    /// Whether each input of a node has a lower rank.
    fn is_above_inputs(&self, ranks: &[u32], node: NodeId) -> bool
        ensures { result ≡ true → IsAbove (slice_index ranks.now) self.now node.0 }
    {
        are_below(ranks, self.inputs(node), rank_of(ranks, node))
    }
}

/// Whether each of these nodes has a rank below this one.
fn are_below(ranks: &[u32], nodes: &[NodeId], rank: u32) -> bool
    ensures { result ≡ list_all (λ node. ltb (slice_index ranks.now node.0) rank) nodes.now }
{
    nodes.iter().all(|node| rank_of(ranks, *node) < rank)
}

/// The rank of a node, 0 where there is no such node.
fn rank_of(ranks: &[u32], node: NodeId) -> u32
    ensures { result ≡ slice_index ranks.now node.0 }
{
    match ranks.get(node.0 as usize) {
        Some(rank) => *rank,
        None => 0,
    }
}
