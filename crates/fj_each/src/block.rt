ghost use Rattle.std.specs.Prelude.{◌≡◌, ◌+◌, ◌-◌, ◌<◌, ◌≤◌, IfNone, IfSome};

/// Consecutive items, by their places.
#[derive(Clone, Copy, PartialEq, Eq, Debug)]
pub struct Block {
    /// The first place.
    pub from: usize,
    /// The place after the last one.
    pub to: usize,
    ghost ordered: { from ≤ to },
}

/// Into about how many blocks a pool's part of a loop is cut: many for each worker, and few enough that their ends cost nothing.
const BLOCKS: usize = 1_024;

impl Block {
    /// How many items are done at a time where a pool does this block.
    pub fn grain(self) -> usize {
        (self.to - self.from) / BLOCKS
    }

    /// Its two halves, of which the right one may have one item more; None where it has at most `grain` items, or fewer than 2.
    pub fn halves(self, grain: usize) -> Option<(Block, Block)>
        ensures ends { IfSome result (λ p. (p.0.from ≡ self.from) × (p.0.to ≡ p.1.from) × (p.1.to ≡ self.to)) }
        ensures some { IfSome result (λ p. (self.from < p.1.from) × (p.1.from < self.to)) }
        ensures even { IfSome result (λ p. (p.0.to - p.0.from ≤ p.1.to - p.1.from) × (p.1.to - p.1.from ≤ p.0.to - p.0.from + 1)) }
        ensures large { IfSome result (λ p. grain < self.to - self.from) }
        ensures none { IfNone result (grain < self.to - self.from → self.to - self.from < 2) }
    {
        let Block { from, to } = self;
        let count = to - from;
        if count <= grain || count < 2 {
            return None;
        }
        let middle = from + count / 2;
        let left = Block { from, to: middle };
        let right = Block { from: middle, to };
        Some((left, right))
    }
}
