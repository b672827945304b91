//! A graph of nodes with inputs: the work of each is called at most once, after all its inputs are done, by the workers of a pool.
//!
//! ```
//! let mut graph = Graph::new(alloc);
//! let source = graph.node()?;
//! let object = graph.node()?;
//! // The work of the object begins when that of its source is done.
//! graph.needs(object, source)?;
//! let ran = run_graph(&rt, alloc, Settings::workers(4)?, Policy::KeepGoing, graph, &compiler, &StopFlag::new())?;
//! ```
#![tactic(auto)]

mod calls;
mod node_call;
mod player;
mod policy;
mod refused;
mod running;
mod stop_flag;
mod under_way;
mod work;

pub use fj_nodes::{Fate, Graph, GraphFault, GraphStep, NodeId};
pub use fj_run::{Limits, Refusal, Settings};
pub use policy::Policy;
pub use refused::GraphRefused;
pub use running::{Ran, run_graph};
pub use stop_flag::StopFlag;
pub use work::Work;
