ghost use Rattle.std.specs.Prelude.{◌≡◌, true};
ghost use Rattle.std.proofs.Common.{refl};

use crate::tried::Tried;
use crate::try_divide::TryDivide;
use fj_invoke::Divide;
use std::alloc::Global;

/// A job that may fail, as one that has a value in each case: its result.
#[derive(Drop)]
pub struct Trying<J: TryDivide> {
    /// The job.
    pub job: J,
    /// The allocator for its parts.
    pub alloc: Global,
}

impl<J: TryDivide> Divide for Trying<J> {
    type Key = ();

    type Out = Tried<J>;

    ghost key_of = { λ j. tt };

    ghost value = { λ k. tt };

    ghost leaf_of = { λ j. tt };

    ghost combined = { λ a b. tt };

    ghost size = { λ j. J.size j.job };

    fn key(&self) {}

    fn split(self) -> Result<(Trying<J>, Trying<J>), Trying<J>> {
        let Trying { job, alloc } = self;
        match job.split() {
            Ok((left, right)) => Ok((Trying { job: left, alloc }, Trying { job: right, alloc })),
            Err(job) => Err(Trying { job, alloc }),
        }
    }

    fn leaf(&self) -> Tried<J> {
        Tried::at(&self.job, self.alloc)
    }

    fn combine(left: Tried<J>, right: Tried<J>) -> Tried<J> {
        left.then(right)
    }

    fn is_final(value: &Tried<J>) -> bool {
        value.is_failure()
    }

    ghost same_value = { λ a b e. refl };
}
