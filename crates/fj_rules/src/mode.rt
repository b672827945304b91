/// The order in which a worker takes tasks from its own queue.
///
/// This is the `asyncMode` of `ForkJoinPool`. From every other queue a worker takes the oldest first in either mode.
#[derive(Clone, Copy, Debug, PartialEq)]
pub enum Mode {
    /// First in, first out: for tasks that are never joined.
    Async,
    /// Last in, first out: Java's default, for tasks that are joined.
    Joining,
}
