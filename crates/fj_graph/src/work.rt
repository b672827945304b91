use fj_nodes::NodeId;

/// What is done for the nodes of a graph, by several threads at once.
pub trait Work {
    /// Does the work of a node. `Err` is a code that says why it failed.
    fn run(&self, node: NodeId) -> Result<(), u32>;
}
