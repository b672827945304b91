/// A node of a tree: the number of its parent, and its own value.
#[derive(Clone, Copy, PartialEq, Eq, Debug)]
pub struct Node {
    /// The number of the parent, which is smaller than the node's; None for node 0 alone.
    pub parent: Option<u32>,
    /// 0 to 1,000,000,006.
    pub value: u32,
}
