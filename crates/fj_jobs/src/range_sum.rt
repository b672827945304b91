ghost use Rattle.std.specs.Prelude.{◌≡◌, ◌+◌, ◌%◌, ◌^◌};
ghost use Rattle.fj_jobs.specs.Ranges.{range_sum, same_interval};

use crate::blocked_range::BlockedRange;
use crate::divide::Divide;
use crate::interval::Interval;

/// The sum of the numbers of a range; 0 where there are none. It is below 2^64.
#[derive(Drop)]
pub struct RangeSum {
    /// The numbers, and their blocks.
    pub range: BlockedRange,
}

impl Divide for RangeSum {
    type Key = Interval;

    type Out = u64;

    ghost key_of = { λ j. j.range.numbers };

    ghost value = { λ k. range_sum k.from k.count };

    ghost leaf_of = { λ j. range_sum j.range.numbers.from j.range.numbers.count };

    // A sum of halves of a range does not wrap; `combine` is defined for all numbers.
    ghost combined = { λ a b. (a + b) % 2 ^ 64 };

    ghost size = { λ j. j.range.numbers.count };

    fn key(&self) -> Interval {
        self.range.numbers
    }

    #[tactic(auto, using(crate::proofs::Sums::sum_halves))]
    fn split(self) -> Result<(RangeSum, RangeSum), RangeSum> {
        let RangeSum { range } = self;
        match range.halve() {
            Ok((left, right)) => Ok((RangeSum { range: left }, RangeSum { range: right })),
            Err(range) => Err(RangeSum { range }),
        }
    }

    fn leaf(&self) -> u64 {
        self.range.numbers.sum()
    }

    fn combine(left: u64, right: u64) -> u64 {
        left.wrapping_add(right)
    }

    ghost same_value = { λ a b e. same_interval range_sum a.from a.count b.from b.count e };
}
