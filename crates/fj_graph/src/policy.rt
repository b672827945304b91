/// What a failure does to the rest of a run.
#[derive(Clone, Copy, Debug, PartialEq)]
pub enum Policy {
    /// Whatever does not need the failed node goes on.
    KeepGoing,
    /// Nothing more is called once the first failure was seen; work already running is run to its end.
    StopAtFirstFailure,
}
