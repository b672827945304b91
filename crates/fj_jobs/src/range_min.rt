ghost use Rattle.std.specs.Prelude.{◌≡◌};
ghost use Rattle.fj_jobs.specs.Ranges.{better, residues_least, same_residues_least};

use crate::blocked_range::BlockedRange;
use crate::divide::Divide;
use crate::interval::Interval;
use crate::linear_mod::{LinearMod, lower};

/// The least value of a function over a range, and the smallest number that has it: `(value, number)`. None where the range is empty.
#[derive(Drop)]
pub struct RangeMin {
    /// The numbers, and their blocks.
    pub range: BlockedRange,
    /// The function.
    pub function: LinearMod,
}

impl Divide for RangeMin {
    type Key = (Interval, LinearMod);

    type Out = Option<(u64, u64)>;

    ghost key_of = { λ j. (j.range.numbers, j.function) };

    ghost value = { λ k. residues_least k.1.mul k.1.add k.1.modulus k.0.from k.0.count };

    ghost leaf_of = { λ j. residues_least j.function.mul j.function.add j.function.modulus j.range.numbers.from j.range.numbers.count };

    ghost combined = { better };

    ghost size = { λ j. j.range.numbers.count };

    fn key(&self) -> (Interval, LinearMod) {
        (self.range.numbers, self.function)
    }

    #[tactic(auto, using(crate::proofs::Residues::least_halves))]
    fn split(self) -> Result<(RangeMin, RangeMin), RangeMin> {
        let RangeMin { range, function } = self;
        match range.halve() {
            Ok((left, right)) => Ok((
                RangeMin {
                    range: left,
                    function,
                },
                RangeMin {
                    range: right,
                    function,
                },
            )),
            Err(range) => Err(RangeMin { range, function }),
        }
    }

    fn leaf(&self) -> Option<(u64, u64)> {
        self.function.least(&self.range.numbers)
    }

    fn combine(left: Option<(u64, u64)>, right: Option<(u64, u64)>) -> Option<(u64, u64)> {
        lower(left, right)
    }

    ghost same_value = { λ a b e. same_residues_least a.0.from a.0.count a.1.mul a.1.add a.1.modulus b.0.from b.0.count b.1.mul b.1.add b.1.modulus e };
}
