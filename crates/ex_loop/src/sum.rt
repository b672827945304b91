ghost use Rattle.std.specs.Prelude.{◌≡◌, ◌++◌, List, ℕ, IfOk};
ghost use Rattle.ex_loop.specs.Sums.{wrapped_sum};

use fj_each::Reduce;
use std::alloc::Global;
use std::convert::Infallible;

/// Sums numbers. A sum wraps at 2^64.
#[derive(Drop)]
pub struct Sum;

impl Reduce<u32> for Sum {
    type Out = u64;

    type Error = Infallible;

    ghost gives = { λ xs o. o ≡ wrapped_sum xs };

    fn map(&self, _alloc: Global, items: &[u32]) -> Result<u64, Infallible> {
        let mut sum = 0u64;
        for item in items {
            sum = sum.wrapping_add(u64::from(*item));
        }
        Ok(sum)
    }

    #[tactic(auto, using(crate::proofs::Halves::sum_of_both))]
    fn combine(_alloc: Global, left: u64, right: u64) -> Result<u64, Infallible> {
        Ok(left.wrapping_add(right))
    }
}
