use fj_run::{NoResult, Refusal};
use thiserror::Error;

/// Why an event has no level.
#[derive(Clone, Copy, Debug, PartialEq, Error)]
pub enum Fault {
    /// It was rejected, or dropped, with this code: 1 to 4 where the stage of that number rejected it, 12 where there was no room for a
    /// stage.
    #[error("failed with code {0}")]
    Failed(u32),
    /// The pool or its run was refused, for the reasons of `run_alone`.
    #[error("{0}")]
    Refused(Refusal),
    /// A stage did not get the result of the next one. This does not happen in a pool.
    #[error("lost")]
    Lost,
}

impl From<NoResult> for Fault {
    ghost use Rattle.std.specs.Prelude.{◌≡◌};
    ghost use Rattle.ex_pipeline.specs.Faults.{fault_of};

    ghost from_gives = { λ none given. given ≡ fault_of none };

    fn from(none: NoResult) -> Fault {
        match none {
            NoResult::Failed(code) => Fault::Failed(code),
            NoResult::Missing => Fault::Lost,
        }
    }
}
