ghost use Rattle.std.specs.Prelude.{◌≡◌};
ghost use Rattle.std.specs.Option.{option_or};
ghost use Rattle.fj_jobs.specs.Ranges.{residues_hit, same_residues_hit};

use crate::blocked_range::BlockedRange;
use crate::divide::Divide;
use crate::interval::Interval;
use crate::linear_mod::LinearMod;

/// The smallest number of a range at which a function has the wanted value; None where there is none.
#[derive(Drop)]
pub struct FirstHit {
    /// The numbers, and their blocks.
    pub range: BlockedRange,
    /// The function.
    pub function: LinearMod,
    /// The wanted value.
    pub want: u64,
}

impl Divide for FirstHit {
    type Key = (Interval, LinearMod, u64);

    type Out = Option<u64>;

    ghost key_of = { λ j. (j.range.numbers, j.function, j.want) };

    ghost value = { λ k. residues_hit k.1.mul k.1.add k.1.modulus k.2 k.0.from k.0.count };

    ghost leaf_of = { λ j. residues_hit j.function.mul j.function.add j.function.modulus j.want j.range.numbers.from j.range.numbers.count };

    ghost combined = { option_or };

    ghost size = { λ j. j.range.numbers.count };

    fn key(&self) -> (Interval, LinearMod, u64) {
        (self.range.numbers, self.function, self.want)
    }

    #[tactic(auto, using(crate::proofs::Residues::hit_halves))]
    fn split(self) -> Result<(FirstHit, FirstHit), FirstHit> {
        let FirstHit {
            range,
            function,
            want,
        } = self;
        match range.halve() {
            Ok((left, right)) => Ok((
                FirstHit {
                    range: left,
                    function,
                    want,
                },
                FirstHit {
                    range: right,
                    function,
                    want,
                },
            )),
            Err(range) => Err(FirstHit {
                range,
                function,
                want,
            }),
        }
    }

    fn leaf(&self) -> Option<u64> {
        self.function.first(&self.range.numbers, self.want)
    }

    fn combine(left: Option<u64>, right: Option<u64>) -> Option<u64> {
        left.or(right)
    }

    fn is_final(value: &Option<u64>) -> bool {
        value.is_some()
    }

    ghost same_value = { λ a b e. same_residues_hit a.0.from a.0.count a.1.mul a.1.add a.1.modulus a.2 b.0.from b.0.count b.1.mul b.1.add b.1.modulus b.2 e };
}
