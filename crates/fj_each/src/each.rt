ghost use Rattle.std.specs.Prelude.{ℕ, ◌≤◌, ◌^◌};

use std::ops::Range;

/// What is done with each block of a range.
pub trait Each {
    /// All numbers that it takes are below this: the length of a table, say. By default it takes all.
    ghost limit: { Self → ℕ } = { λ e. 2 ^ 64 };

    /// Does it with the numbers of a block. Precondition: they are in order, and below the limit.
    fn each(&self, block: Range<usize>)
        requires ordered { block.start ≤ block.end }
        requires below { block.end ≤ limit self.now };
}
