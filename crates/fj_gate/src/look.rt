/// The state of the gate at a query, as `ForkJoinPool.isShutdown`, with a count.
#[derive(Clone, Copy, Debug, PartialEq)]
pub enum Look {
    /// The gate is open, with the number of admissions so far over all entrants, at most 2,097,152.
    Open(u64),
    /// The gate is closed.
    Closed,
}
