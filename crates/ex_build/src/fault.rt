use fj_run::{NoResult, Refusal};
use thiserror::Error;

/// Why nothing was built.
#[derive(Clone, Copy, Debug, PartialEq, Error)]
pub enum Fault {
    /// A target failed with this code, and so did all that need it: that of a compiler; 404 where an input is not in the plan; 12 where
    /// there was no room for a target, or it has more inputs than a pending count takes.
    #[error("failed with code {0}")]
    Failed(u32),
    /// The pool or its run was refused, for the reasons of `run_alone`.
    #[error("{0}")]
    Refused(Refusal),
    /// The plan is empty.
    #[error("no target")]
    NoTarget,
    /// There is no artifact: out of memory while it was linked, or it is too large.
    #[error("lost")]
    Lost,
}

impl From<NoResult> for Fault {
    ghost use Rattle.std.specs.Prelude.{◌≡◌};
    ghost use Rattle.ex_build.specs.Faults.{fault_of};

    ghost from_gives = { λ none given. given ≡ fault_of none };

    fn from(none: NoResult) -> Fault {
        match none {
            NoResult::Failed(code) => Fault::Failed(code),
            NoResult::Missing => Fault::Lost,
        }
    }
}
