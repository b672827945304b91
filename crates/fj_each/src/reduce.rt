ghost use Rattle.std.specs.Prelude.{◌++◌, List, IfOk};

use std::alloc::Global;

/// Maps a block of items to a value, and combines the values of adjacent blocks.
///
/// What is promised is `gives`; `λ xs o. ⊤` promises nothing.
pub trait Reduce<T> {
    /// The value of a block.
    type Out: Drop;

    /// Why there is none.
    type Error: Drop;

    /// This value is right for these items.
    ghost gives: { List T → Self.Out → Type 0 };

    /// The value of these items, or why there is none.
    fn map(&self, alloc: Global, items: &[T]) -> Result<Self::Out, Self::Error>
        ensures { IfOk result (λ o. ∥ gives items.now o ∥₁) };

    /// The value of two adjacent blocks, from those of the left and the right one; or why there is none.
    fn combine(alloc: Global, left: Self::Out, right: Self::Out) -> Result<Self::Out, Self::Error>
        ensures { (xs ys : List T) → ∥ gives xs left ∥₁ → ∥ gives ys right ∥₁ → IfOk result (λ o. ∥ gives (xs ++ ys) o ∥₁) };
}
