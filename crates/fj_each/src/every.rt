ghost use Rattle.std.specs.Prelude.{◌≡◌, ◌<◌, ◌≤◌, IfErr, IfOk, true, ⊤};
ghost use Rattle.std.proofs.Common.{refl};
ghost use Rattle.fj_each.specs.Blocks.{AreParts, size_of};

use crate::block::Block;
use crate::each::Each;
use fj_jobs::Divide;

/// A part of a loop over a range. It has no value.
#[derive(Drop)]
pub struct Every<'f, E: Each> {
    /// The numbers.
    pub block: Block,
    /// How many are done at a time.
    pub grain: usize,
    /// What is done with them.
    pub each: &'f E,
    ghost below: { block.to ≤ E.limit each.now },
}

impl<'f, E: Each> Every<'f, E> {
    /// The same of this part of it. Precondition: it is below the limit.
    fn of_block(&self, block: Block) -> Every<'f, E>
        requires { block.to ≤ E.limit self.now.each.now }
        ensures { result.block ≡ block }
    {
        Every {
            block,
            grain: self.grain,
            each: self.each,
        }
    }
}

impl<'f, E: Each> Divide for Every<'f, E> {
    type Key = ();

    type Out = ();

    ghost key_of = { λ j. tt };

    ghost value = { λ k. tt };

    ghost leaf_of = { λ j. tt };

    ghost combined = { λ a b. tt };

    ghost size = { λ j. size_of j.block };

    fn key(&self) {}

    fn split(self) -> Result<(Every<'f, E>, Every<'f, E>), Every<'f, E>>
        ensures halves { IfOk result (λ p. ◌≡◌ {A = ⊤} tt tt) }
        ensures parts { IfOk result (λ p. AreParts self.entry.block p.0.block p.1.block) }
        ensures smaller { IfOk result (λ p. (size_of p.0.block < size_of self.entry.block) × (size_of p.1.block < size_of self.entry.block)) }
        ensures leaf { IfErr result (λ j. (j ≡ self.entry) × ◌≡◌ {A = ⊤} tt tt) }
        ensures small { IfErr result (λ j. self.entry.grain < size_of self.entry.block → size_of self.entry.block < 2) }
    {
        match self.block.halves(self.grain) {
            Some((left, right)) => Ok((self.of_block(left), self.of_block(right))),
            None => Err(self),
        }
    }

    fn leaf(&self) {
        self.each.each(self.block.from..self.block.to)
    }

    fn combine(_left: (), _right: ()) {}

    ghost same_value = { λ a b e. refl };
}
