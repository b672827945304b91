ghost use Rattle.std.specs.Prelude.{◌≡◌, ◌+◌, ◌%◌, ◌^◌};
ghost use Rattle.fj_jobs.specs.Ranges.{range_sum, same_interval};

use fj_invoke::{Divide, Interval};

/// The sum of the numbers of a range, which splits off one at a time, as deep as it has numbers.
#[derive(Drop)]
pub struct OneByOne {
    /// The numbers.
    pub numbers: Interval,
    /// Whether that one is the right half.
    pub right: bool,
}

impl Divide for OneByOne {
    type Key = Interval;

    type Out = u64;

    ghost key_of = { λ j. j.numbers };

    ghost value = { λ k. range_sum k.from k.count };

    ghost leaf_of = { λ j. range_sum j.numbers.from j.numbers.count };

    ghost combined = { λ a b. (a + b) % 2 ^ 64 };

    ghost size = { λ j. j.numbers.count };

    fn key(&self) -> Interval {
        self.numbers
    }

    #[tactic(auto, using(fj_jobs::proofs::Sums::sum_halves))]
    fn split(self) -> Result<(OneByOne, OneByOne), OneByOne> {
        let OneByOne { numbers, right } = self;
        if numbers.count <= 1 {
            return Err(OneByOne { numbers, right });
        }
        let count = if right { numbers.count - 1 } else { 1 };
        let first = Interval {
            from: numbers.from,
            count,
        };
        let rest = Interval {
            from: numbers.from + count,
            count: numbers.count - count,
        };
        Ok((
            OneByOne {
                numbers: first,
                right,
            },
            OneByOne {
                numbers: rest,
                right,
            },
        ))
    }

    fn leaf(&self) -> u64 {
        self.numbers.sum()
    }

    fn combine(left: u64, right: u64) -> u64 {
        left.wrapping_add(right)
    }

    ghost same_value = { λ a b e. same_interval range_sum a.from a.count b.from b.count e };
}
