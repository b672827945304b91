/// The outcome of a try to release a task.
#[derive(Clone, Copy)]
pub enum Tried {
    /// It was released.
    Released,
    /// It cannot be released yet.
    Needed,
    /// It could be released, but the history is full.
    Full,
}

/// The history had no room for the next release.
#[derive(Clone, Copy)]
pub struct HistoryFull;
