//! A graph of nodes with inputs, whether it has a cycle, and how far each node of a run has come.
//!
//! ```
//! let mut graph = Graph::new(alloc);
//! let source = graph.node()?;
//! let object = graph.node()?;
//! // The object begins when the source is done.
//! graph.needs(object, source)?;
//! // A node that is on a cycle, or needs one that is: here none.
//! let found = graph.cycle(alloc)?;
//! ```
#![tactic(auto)]

mod fate;
mod fault;
mod frontier;
mod graph;
mod graph_step;
mod named_graph;
mod node;
mod node_state;
mod order;
mod progress;

pub use fate::Fate;
pub use fault::GraphFault;
pub use frontier::Frontier;
pub use graph::Graph;
pub use graph_step::GraphStep;
pub use named_graph::NamedGraph;
pub use node::NodeId;
pub use progress::Progress;
