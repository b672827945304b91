ghost use Rattle.std.specs.Prelude.{◌≡◌, ◌<◌, ℕ, ⊤, IfOk, IfErr, length};

use fj_try::TryDivide;
use std::alloc::{AllocError, Global};

/// The most numbers that are sorted at once.
const BLOCK: usize = 4_096;

/// Sorts numbers. It fails where out of memory.
#[derive(Drop)]
pub struct Sort<'t> {
    /// The numbers.
    pub numbers: &'t [u32],
}

impl<'t> TryDivide for Sort<'t> {
    type Key = ();

    type Out = Vec<u32>;

    type Error = AllocError;

    ghost key_of = { λ j. tt };

    // Nothing is promised of the sorted numbers.
    ghost gives = { λ k o. ⊤ };

    ghost size = { λ j. length j.numbers.now };

    fn key(&self) {}

    fn split(self) -> Result<(Sort<'t>, Sort<'t>), Sort<'t>> {
        if self.numbers.len() <= BLOCK {
            return Err(self);
        }
        let half = self.numbers.len() / 2;
        let (left, right) = self.numbers.split_at(half);
        Ok((Sort { numbers: left }, Sort { numbers: right }))
    }

    fn leaf(&self, alloc: Global) -> Result<Vec<u32>, AllocError> {
        let mut sorted = self.numbers.to_vec(alloc)?;
        sorted.sort_unstable();
        Ok(sorted)
    }

    fn combine(
        _alloc: Global,
        left: ((), Vec<u32>),
        right: ((), Vec<u32>),
    ) -> Result<((), Vec<u32>), AllocError>
        requires left { ∥ ⊤ ∥₁ }
        requires right { ∥ ⊤ ∥₁ }
        ensures { IfOk result (λ r. ∥ ⊤ ∥₁) }
    {
        let (mut sorted, mut right) = (left.1, right.1);
        sorted.append(&mut right)?;
        // A stable sort merges two sorted runs.
        sorted.sort()?;
        Ok(((), sorted))
    }

    ghost same_key = { λ a b o e g. g };
}
