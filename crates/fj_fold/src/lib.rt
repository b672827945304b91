//! A tree folded by counted completers: the value of a node is its own and k times that of its k-th child, modulo 1,000,000,007.
//!
//! ```
//! let tree = read_tree(alloc, &mut b"- 5\n0 2\n0 3\n1 4\n".as_slice())?;
//! // By 4 workers in threads: 5 + 1 * (2 + 1 * 4) + 2 * 3.
//! let value = fold_tree(&rt, alloc, 4, &tree, &Open)?;
//! ```
#![tactic(auto)]

mod folding;

pub use fj_body::{Ask, Body, Heard};
pub use fj_rules::Refusal;
pub use fj_run::{Open, RecordedValue, Turnstile};
pub use fj_trees::{Family, NamedTree, Node, Nodes, TreeFault, TreeFold, read_tree};
pub use folding::{fold_tree, record_fold};
