use fj_run::{Body, NoResult, Outcome, Refusal, result_in};

/// What became of a body.
#[derive(Drop)]
pub enum Reported<K, O> {
    /// It gave this result, beside its key.
    Result(K, O),
    /// It failed with this code.
    Failed(u32),
    /// It was cancelled, or ended without a result.
    Missing,
    /// It is not known: `Unknown` if another body had its result, or released its task; `LogFull` if the pool got stuck before it was
    /// reported.
    Refused(Refusal),
}

/// The report of an outcome.
pub fn told_of<B: Body>(outcome: Result<Outcome<B>, Refusal>) -> Reported<B::Key, B::Out> {
    match outcome {
        Ok(outcome) => match result_in(outcome) {
            Ok((key, out)) => Reported::Result(key, out),
            Err(NoResult::Failed(code)) => Reported::Failed(code),
            Err(NoResult::Missing) => Reported::Missing,
        },
        Err(refusal) => Reported::Refused(refusal),
    }
}
