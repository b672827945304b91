ghost use Rattle.std.specs.Prelude.{◌≡◌, ◌<◌, ◌≤◌, ◌++◌, ◌∷◌, [], IfErr, IfOk, OnErr, length, map};
ghost use Rattle.fj_nodes.specs.Graphs.{FaultIn, inputs_at, number_of, with_input};

use crate::fault::GraphFault;
use crate::node::{Node, NodeId};
use std::alloc::Global;
use std::marker::Model;

/// Nodes, each with the nodes that it needs.
#[derive(Drop)]
pub struct Graph {
    alloc: Global,
    nodes: Vec<Node>,
}

impl Model for Graph {
    ghost use Rattle.std.specs.Prelude.{List, ℕ};

    ghost Value = { List (List ℕ) };

    ghost use Rattle.fj_nodes.specs.Graphs.{AreNodes, graph_of};

    ghost view = { λ g. graph_of g.nodes.items };

    ghost invariant = { λ g. AreNodes (graph_of g.nodes.items) };
}

impl Graph {
    /// A graph without nodes.
    pub fn new(alloc: Global) -> Graph
        ensures { result ≡ [] }
    {
        Graph {
            alloc,
            nodes: Vec::new(alloc),
        }
    }

    /// How many nodes there are.
    pub fn len(&self) -> usize
        ensures { result ≡ length self.now }
    {
        self.nodes.len()
    }

    /// The same as a number of the width of a `NodeId`.
    pub(crate) fn count(&self) -> u32
        ensures { result ≡ length self.now }
    {
        self.nodes.len() as u32
    }

    /// Adds a node, which needs nothing yet. `OutOfMemory` where an allocation fails, or there are 4,294,967,295 already: then the graph is
    /// unchanged.
    pub fn node(&mut self) -> Result<NodeId, GraphFault>
        ensures number { IfOk result (λ node. node.0 ≡ length self.old) }
        ensures more { IfOk result (λ _. self.new ≡ self.old ++ [] ∷ []) }
        ensures same { OnErr result (self.new ≡ self.old) }
        ensures err { IfErr result (λ fault. fault ≡ GraphFault.OutOfMemory) }
    {
        let number = self.nodes.len();
        if number >= u32::MAX as usize {
            return Err(GraphFault::OutOfMemory);
        }
        let node = Node {
            inputs: Vec::new(self.alloc),
            users: Vec::new(self.alloc),
        };
        match self.nodes.push(node) {
            Ok(()) => Ok(NodeId(number as u32)),
            Err(_) => Err(GraphFault::OutOfMemory),
        }
    }

    /// Adds an input: the work of this node begins once the work of the input is done. On an error the graph is unchanged.
    ///
    /// `Missing` where one of them is not a node, the first such; `OutOfMemory` where an allocation fails.
    pub fn needs(&mut self, node: NodeId, input: NodeId) -> Result<(), GraphFault>
        ensures nodes { IfOk result (λ _. (node.0 < length self.old) × (input.0 < length self.old)) }
        ensures input { IfOk result (λ _. self.new ≡ with_input self.old node.0 input.0) }
        ensures same { OnErr result (self.new ≡ self.old) }
        ensures err { IfErr result (FaultIn self.old node input) }
    {
        let nodes = self.nodes.len();
        if node.0 as usize >= nodes {
            return Err(GraphFault::Missing(node));
        }
        if input.0 as usize >= nodes {
            return Err(GraphFault::Missing(input));
        }
        if self.nodes[input.0 as usize].users.reserve(1).is_err() {
            return Err(GraphFault::OutOfMemory);
        }
        if self.nodes[node.0 as usize].inputs.push(input).is_err() {
            return Err(GraphFault::OutOfMemory);
        }
        let _pushed = self.nodes[input.0 as usize].users.push(node);
        Ok(())
    }

    /// What a node needs; nothing where there is no such node.
    pub fn inputs(&self, node: NodeId) -> &[NodeId]
        ensures { map number_of result.now ≡ inputs_at self.now node.0 }
    {
        match self.nodes.get(node.0 as usize) {
            Some(node) => node.inputs.as_slice(),
            None => &[],
        }
    }

    /// Which nodes need a node; none where there is no such node.
    pub(crate) fn users(&self, node: NodeId) -> &[NodeId] {
        match self.nodes.get(node.0 as usize) {
            Some(node) => node.users.as_slice(),
            None => &[],
        }
    }
}
