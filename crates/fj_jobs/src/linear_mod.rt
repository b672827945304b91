ghost use Rattle.std.specs.Prelude.{◌≡◌, ℕ, ◌+◌, ◌*◌, ◌^◌, ◌<◌, ◌≤◌, Some, None, MatchOption};
ghost use Rattle.fj_jobs.specs.Ranges.{better, residue, residues_least, residues_hit, IsLeast, IsFirst};

use crate::interval::Interval;

/// The function of x with the value `(mul * x + add) mod modulus`.
#[derive(Clone, Copy, PartialEq, Eq, Debug)]
pub struct LinearMod {
    /// The factor, below 2^32.
    pub mul: u64,
    /// The summand, below 2^32.
    pub add: u64,
    /// The divisor, 1 to 2^32 - 1.
    pub modulus: u64,
    ghost small: { (mul < 2 ^ 32) × (add < 2 ^ 32) × (modulus < 2 ^ 32) },
    ghost divisor: { 0 < modulus },
}

/// The lower of two values with their numbers: the left one where they are equal.
pub(crate) fn lower(left: Option<(u64, u64)>, right: Option<(u64, u64)>) -> Option<(u64, u64)>
    ensures { result ≡ better left right }
{
    match (left, right) {
        (Some(p), Some(q)) => Some(if q.0 < p.0 { q } else { p }),
        (Some(p), None) => Some(p),
        (None, right) => right,
    }
}

impl LinearMod {
    /// The function with these numbers. Precondition: `modulus` is not 0.
    pub fn new(mul: u32, add: u32, modulus: u32) -> LinearMod
        requires { 0 < modulus }
        ensures mul { result.mul ≡ mul }
        ensures add { result.add ≡ add }
        ensures modulus { result.modulus ≡ modulus }
    {
        LinearMod {
            mul: u64::from(mul),
            add: u64::from(add),
            modulus: u64::from(modulus),
        }
    }

    /// The value at `x`. Precondition: `x` is below 2^32.
    #[tactic(auto, using(crate::proofs::Residues::product_small))]
    pub fn at(&self, x: u64) -> u64
        requires { x < 2 ^ 32 }
        ensures { result ≡ residue self.now.mul self.now.add self.now.modulus x }
    {
        (self.mul * x + self.add) % self.modulus
    }

    /// The least value at these numbers, and the smallest number that has it; None where there are no numbers.
    #[tactic(auto, using(crate::proofs::Residues::least_more, crate::proofs::Residues::least_is_least))]
    pub fn least(&self, numbers: &Interval) -> Option<(u64, u64)>
        ensures value { result ≡ residues_least self.now.mul self.now.add self.now.modulus numbers.now.from numbers.now.count }
        ensures least { IsLeast (residue self.now.mul self.now.add self.now.modulus) numbers.now.from numbers.now.count result }
    {
        let mut best = None;
        for i in 0..numbers.count {
            let x = numbers.from + i;
            best = lower(best, Some((self.at(x), x)));
        }
        best
    }

    /// The smallest of these numbers with the value `want`; None where no number has it.
    #[tactic(auto, using(crate::proofs::Residues::hit_more))]
    pub fn first(&self, numbers: &Interval, want: u64) -> Option<u64>
        ensures value { result ≡ residues_hit self.now.mul self.now.add self.now.modulus want numbers.now.from numbers.now.count }
        ensures first { IsFirst (residue self.now.mul self.now.add self.now.modulus) want numbers.now.from numbers.now.count result }
    {
        for i in 0..numbers.count {
            let x = numbers.from + i;
            if self.at(x) == want {
                return Some(x);
            }
        }
        None
    }
}
