ghost use Rattle.std.specs.Prelude.{◌≡◌, ℕ, ◌<◌, ◌≤◌, IfOk, IfErr, IsSome, length, slice_range};
ghost use Rattle.fj_each.specs.Blocks.{AreParts, same_block, size_of};

use crate::block::Block;
use crate::items::Items;
use crate::reduce::Reduce;
use fj_try::TryDivide;
use std::alloc::Global;
use std::marker::PhantomData;

/// A part of a reduction.
#[derive(Drop)]
pub struct Part<'d, 'm, T, M, N: Items<T>> {
    /// All items.
    pub items: &'d [T],
    /// Which of them.
    pub block: Block,
    /// How many are done at a time.
    pub grain: usize,
    /// What is done.
    pub reduce: &'m M,
    /// The type that names the items.
    pub of: PhantomData<N>,
    ghost named: { ∥ items.now ≡ N.items ∥₁ },
    ghost within: { block.to ≤ length items.now },
}

impl<'d, 'm, T, M, N: Items<T>> Part<'d, 'm, T, M, N> {
    /// The same of this part of it. Precondition: it is within the items.
    fn of_block(&self, block: Block) -> Part<'d, 'm, T, M, N>
        requires { block.to ≤ length self.now.items.now }
        ensures { result.block ≡ block }
    {
        Part {
            items: self.items,
            block,
            grain: self.grain,
            reduce: self.reduce,
            of: PhantomData,
        }
    }
}

impl<'d, 'm, T, M: Reduce<T>, N: Items<T>> TryDivide for Part<'d, 'm, T, M, N> {
    type Key = Block;

    type Out = M::Out;

    /// None where two parts are not adjacent, which does not happen in a pool.
    type Error = Option<M::Error>;

    ghost key_of = { λ j. j.block };

    ghost gives = { λ k o. M.gives (slice_range N.items k.from k.to) o };

    ghost size = { λ j. size_of j.block };

    fn key(&self) -> Block {
        self.block
    }

    fn split(self) -> Result<(Part<'d, 'm, T, M, N>, Part<'d, 'm, T, M, N>), Part<'d, 'm, T, M, N>>
        ensures parts { IfOk result (λ p. AreParts self.entry.block p.0.block p.1.block) }
        ensures smaller { IfOk result (λ p. (size_of p.0.block < size_of self.entry.block) × (size_of p.1.block < size_of self.entry.block)) }
        ensures leaf { IfErr result (λ j. j ≡ self.entry) }
        ensures small { IfErr result (λ j. self.entry.grain < size_of self.entry.block → size_of self.entry.block < 2) }
    {
        match self.block.halves(self.grain) {
            Some((left, right)) => Ok((self.of_block(left), self.of_block(right))),
            None => Err(self),
        }
    }

    fn leaf(&self, alloc: Global) -> Result<M::Out, Option<M::Error>>
        ensures gives { IfOk result (λ o. ∥ M.gives (slice_range N.items self.now.block.from self.now.block.to) o ∥₁) }
        ensures err { IfErr result IsSome }
    {
        let block = self.block;
        match self.reduce.map(alloc, &self.items[block.from..block.to]) {
            Ok(out) => Ok(out),
            Err(error) => Err(Some(error)),
        }
    }

    fn combine(
        alloc: Global,
        left: (Block, M::Out),
        right: (Block, M::Out),
    ) -> Result<(Block, M::Out), Option<M::Error>>
        requires left { ∥ M.gives (slice_range N.items left.0.from left.0.to) left.1 ∥₁ }
        requires right { ∥ M.gives (slice_range N.items right.0.from right.0.to) right.1 ∥₁ }
        ensures gives { IfOk result (λ r. ∥ M.gives (slice_range N.items r.0.from r.0.to) r.1 ∥₁) }
        ensures whole { IfOk result (λ r. (r.0.from ≡ left.0.from) × (r.0.to ≡ right.0.to)) }
        ensures err { left.0.to ≡ right.0.from → IfErr result IsSome }
    {
        if left.0.to != right.0.from {
            return Err(None);
        }
        let whole = Block {
            from: left.0.from,
            to: right.0.to,
        };
        match M::combine(alloc, left.1, right.1) {
            Ok(out) => Ok((whole, out)),
            Err(error) => Err(Some(error)),
        }
    }

    ghost same_key = { λ a b o e g. same_block (λ from to. M.gives (slice_range N.items from to) o) a.from a.to b.from b.to e g };
}
