ghost use Rattle.std.specs.Prelude.{◌≡◌, ℕ, ◌+◌, ◌-◌, ◌^◌, ◌<◌, ◌≤◌};
ghost use Rattle.fj_jobs.specs.Ranges.{range_sum};

/// Consecutive numbers, all below 2^32.
#[derive(Clone, Copy, PartialEq, Eq, Debug)]
pub struct Interval {
    /// The first number.
    pub from: u64,
    /// How many numbers there are: 0 to 2^32.
    pub count: u64,
    ghost in_range: { from + count ≤ 2 ^ 32 },
}

impl Interval {
    /// The numbers from..to, both included; none where `to` is below `from`.
    pub fn new(from: u32, to: u32) -> Interval
        ensures from { result.from ≡ from }
        ensures count { result.count ≡ to + 1 - from }
    {
        let from = u64::from(from);
        let end = u64::from(to) + 1;
        Interval {
            from,
            count: end.saturating_sub(from),
        }
    }

    /// The sum of the numbers, which is below 2^64.
    #[tactic(auto, using(crate::proofs::Sums::sum_more))]
    pub fn sum(&self) -> u64
        ensures { result ≡ range_sum self.now.from self.now.count }
    {
        let mut sum = 0u64;
        for i in 0..self.count {
            sum += self.from + i;
        }
        sum
    }
}
