ghost use Rattle.std.specs.Prelude.{◌≡◌};
ghost use Rattle.fj_body.specs.Results.{kept_in, outcome_of, status_in};

use crate::body::Body;
use crate::kept_result::KeptResult;
use fj_rules::Status;

/// How a submitted task ended.
#[derive(Drop)]
pub enum Outcome<B: Body> {
    /// Normally, and with a result if one was kept. A root that is made normal by Pass or QuietRoot has none, unless its completion action
    /// is in a hand then, and gives one before the outcome is taken.
    Normal(Option<KeptResult<B>>),
    /// With this code.
    Exceptional(u32),
    /// It was cancelled, or the pool was stopped.
    Cancelled,
}

impl<B: Body> Outcome<B> {
    /// How the task ended: `ForkJoinTask.isCompletedNormally`, `isCancelled`, and a code instead of `getException`.
    pub fn status(&self) -> Status
        ensures { result ≡ status_in self.now }
    {
        match self {
            Outcome::Normal(_) => Status::Normal,
            Outcome::Exceptional(code) => Status::Exceptional(*code),
            Outcome::Cancelled => Status::Cancelled,
        }
    }

    /// The result with its key, if the task ended normally and has one: `ForkJoinTask.getRawResult`.
    pub fn into_kept(self) -> Option<KeptResult<B>>
        ensures { result ≡ kept_in self }
    {
        match self {
            Outcome::Normal(kept) => kept,
            Outcome::Exceptional(_) => None,
            Outcome::Cancelled => None,
        }
    }
}

/// The outcome of a task with this status and this result.
pub fn told_outcome<B: Body>(status: Status, kept: Option<KeptResult<B>>) -> Outcome<B>
    ensures { result ≡ outcome_of status kept }
{
    match status {
        Status::Normal => Outcome::Normal(kept),
        Status::Exceptional(code) => Outcome::Exceptional(code),
        Status::Undone | Status::Cancelled => Outcome::Cancelled,
    }
}
