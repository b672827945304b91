//! Trees of nodes as text, and their fold as bodies: that of a node forks one for each child, as completers, and sums their values in its
//! completion action.
//!
//! ```
//! let nodes = read_tree(alloc, &mut b"- 5\n0 2\n0 3\n1 4\n".as_slice())?;
//! let family = Family::new(alloc, &nodes)?;
//! // `F` is the type that names this tree.
//! let body: TreeFold<'_, F> = TreeFold::new(alloc, &family, 0)?; // to be submitted as a completer
//! let value = TreeFold::value_in(answer, 0)?;
//! ```
#![tactic(auto)]

mod child_sum;
mod family;
mod fold_progress;
mod in_place;
mod joining;
mod member;
mod named_tree;
mod node;
mod node_line;
mod node_values;
mod nodes;
mod tree_fault;
mod tree_fold;
mod tree_input;
mod tree_reader;

pub use family::Family;
pub use named_tree::NamedTree;
pub use node::Node;
pub use node_values::tree_values;
pub use nodes::Nodes;
pub use tree_fault::TreeFault;
pub use tree_fold::TreeFold;
pub use tree_input::read_tree;
