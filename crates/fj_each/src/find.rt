ghost use Rattle.std.specs.Prelude.{◌≡◌, ℕ, ◌<◌, ◌≤◌, ◌-◌, IfOk, IfErr, is_some, length, true};
ghost use Rattle.std.specs.Option.{option_or};
ghost use Rattle.fj_jobs.specs.Finals.{IsFinal};
ghost use Rattle.fj_each.specs.Firsts.{first_in, same_first};

use crate::block::Block;
use crate::search::Search;
use crate::wanted::Wanted;
use fj_jobs::Divide;
use std::marker::PhantomData;

/// A part of a search for the first item that is wanted.
#[derive(Drop)]
pub struct Find<'d, 'p, T, P: Wanted<T>, N: Search<T>> {
    /// All items.
    pub items: &'d [T],
    /// Which of them.
    pub block: Block,
    /// How many are tested at a time.
    pub grain: usize,
    /// What is looked for.
    pub wanted: &'p P,
    /// The type that names the items, and what is wanted.
    pub of: PhantomData<N>,
    ghost named: { ∥ items.now ≡ N.items ∥₁ },
    ghost asked: { (x : T) → P.wants wanted.now x ≡ N.wants x },
    ghost within: { block.to ≤ length items.now },
}

impl<'d, 'p, T, P: Wanted<T>, N: Search<T>> Find<'d, 'p, T, P, N> {
    /// The same of this part of it. Precondition: it is within the items.
    fn of_block(&self, block: Block) -> Find<'d, 'p, T, P, N>
        requires { block.to ≤ length self.now.items.now }
        ensures { result.block ≡ block }
    {
        Find {
            items: self.items,
            block,
            grain: self.grain,
            wanted: self.wanted,
            of: PhantomData,
        }
    }
}

impl<'d, 'p, T, P: Wanted<T>, N: Search<T>> Divide for Find<'d, 'p, T, P, N> {
    type Key = Block;

    type Out = Option<usize>;

    ghost key_of = { λ j. j.block };

    ghost value = { λ k. first_in N.wants N.items k.from k.to };

    ghost leaf_of = { λ j. first_in N.wants N.items j.block.from j.block.to };

    ghost combined = { option_or };

    ghost size = { λ j. j.block.to - j.block.from };

    fn key(&self) -> Block {
        self.block
    }

    fn split(
        self,
    ) -> Result<(Find<'d, 'p, T, P, N>, Find<'d, 'p, T, P, N>), Find<'d, 'p, T, P, N>> {
        match self.block.halves(self.grain) {
            Some((left, right)) => Ok((self.of_block(left), self.of_block(right))),
            None => Err(self),
        }
    }

    fn leaf(&self) -> Option<usize> {
        first_in(self.items, self.block, self.wanted)
    }

    fn combine(left: Option<usize>, right: Option<usize>) -> Option<usize>
        ensures { result ≡ option_or left right }
    {
        left.or(right)
    }

    fn is_final(value: &Option<usize>) -> bool
        ensures found { result ≡ is_some value.now }
        ensures last { result ≡ true → IsFinal option_or value.now }
    {
        value.is_some()
    }

    ghost same_value = { λ a b e. same_first N.wants N.items a.from a.to b.from b.to e };
}

/// The first place in a block at which an item is wanted. Precondition: the block is within the items.
pub fn first_in<T, P: Wanted<T>>(items: &[T], block: Block, wanted: &P) -> Option<usize>
    requires { block.to ≤ length items.now }
    ensures { result ≡ first_in (P.wants wanted.now) items.now block.from block.to }
{
    for place in block.from..block.to {
        if wanted.is_wanted(&items[place]) {
            return Some(place);
        }
    }
    None
}
