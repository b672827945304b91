ghost use Rattle.std.specs.Prelude.{◌≡◌, ℕ, ◌+◌, ◌*◌, ◌^◌, ◌<◌, ◌≤◌, ◌-◌, IfOk, IfErr};
ghost use Rattle.std.specs.Int.{div_ceil};
ghost use Rattle.fj_jobs.specs.Parts.{AreParts};

use crate::interval::Interval;

/// Consecutive numbers in blocks of `grain` numbers; the last block may be shorter.
#[derive(Drop)]
pub struct BlockedRange {
    /// The numbers.
    pub numbers: Interval,
    /// How many numbers a block has: 1 to 2^32 - 1.
    pub grain: u64,
    ghost grained: { (0 < grain) × (grain < 2 ^ 32) },
}

impl BlockedRange {
    /// The numbers from..to, both included, in blocks of `grain`; none where `to` is below `from`. Precondition: `grain` is not 0.
    pub fn new(from: u32, to: u32, grain: u32) -> BlockedRange
        requires { 0 < grain }
        ensures from { result.numbers.from ≡ from }
        ensures count { result.numbers.count ≡ to + 1 - from }
        ensures grain { result.grain ≡ grain }
    {
        BlockedRange {
            numbers: Interval::new(from, to),
            grain: u64::from(grain),
        }
    }

    /// How many blocks there are: the count of numbers divided by `grain`, rounded up.
    pub fn blocks(&self) -> u64
        ensures { result ≡ div_ceil self.now.numbers.count self.now.grain }
    {
        self.numbers.count.div_ceil(self.grain)
    }

    /// The first half of the blocks, rounded up, and the rest; the range itself, unchanged, as `Err` where it has at most one block.
    #[tactic(auto, using(crate::proofs::Blocks::half_fits))]
    pub fn halve(self) -> Result<(BlockedRange, BlockedRange), BlockedRange>
        ensures half { IfOk result (λ p. p.0.numbers.count ≡ div_ceil (div_ceil self.numbers.count self.grain) 2 * self.grain) }
        ensures parts { IfOk result (λ p. AreParts self.numbers p.0.numbers p.1.numbers) }
        ensures grain { IfOk result (λ p. (p.0.grain ≡ self.grain) × (p.1.grain ≡ self.grain)) }
        ensures smaller { IfOk result (λ p. (p.0.numbers.count < self.numbers.count) × (p.1.numbers.count < self.numbers.count)) }
        ensures whole { IfErr result (λ s. (s ≡ self) × (self.numbers.count ≤ self.grain)) }
    {
        let BlockedRange { numbers, grain } = self;
        if numbers.count <= grain {
            return Err(BlockedRange { numbers, grain });
        }
        let count = numbers.count.div_ceil(grain).div_ceil(2) * grain;
        let left = Interval {
            from: numbers.from,
            count,
        };
        let right = Interval {
            from: numbers.from + count,
            count: numbers.count - count,
        };
        Ok((
            BlockedRange {
                numbers: left,
                grain,
            },
            BlockedRange {
                numbers: right,
                grain,
            },
        ))
    }
}
