ghost use Rattle.std.specs.Prelude.{◌≡◌, ℕ, ◌<◌, IfOk, IfErr, true};

use std::alloc::Global;

/// A job that is a leaf, or is done by two smaller jobs, and may fail: at a leaf, or where two values are combined. Both are given an allocator.
///
/// What is promised of a value is a relation to its key, `gives`. Where nothing is to be promised it is `λ k o. ⊤`, with `()` for the key.
pub trait TryDivide: Drop {
    /// What a value belongs to.
    type Key: Eq + Drop;

    /// A value.
    type Out: Drop;

    /// Why there is none.
    type Error: Drop;

    /// The key of a job.
    ghost key_of: { Self → Self.Key };

    /// This value is right for this key.
    ghost gives: { Self.Key → Self.Out → Type 0 };

    /// How large a job is: each half is smaller.
    ghost size: { Self → ℕ };

    /// The key of the job.
    fn key(&self) -> Self::Key
        ensures { result ≡ key_of self.now };

    /// The left and the right half of the job; the job itself, unchanged, as `Err` where it is a leaf.
    fn split(self) -> Result<(Self, Self), Self>
        ensures smaller { IfOk result (λ p. (size p.0 < size self) × (size p.1 < size self)) }
        ensures leaf { IfErr result (λ j. j ≡ self) };

    /// The value of the job, if it is a leaf, or why there is none.
    fn leaf(&self, alloc: Global) -> Result<Self::Out, Self::Error>
        ensures { IfOk result (λ o. ∥ gives (key_of self.now) o ∥₁) };

    /// The value of a job from those of its halves, the left one first, each with its key; or why there is none. Precondition: each is right
    /// for its key.
    fn combine(
        alloc: Global,
        left: (Self::Key, Self::Out),
        right: (Self::Key, Self::Out),
    ) -> Result<(Self::Key, Self::Out), Self::Error>
        requires left { ∥ gives left.0 left.1 ∥₁ }
        requires right { ∥ gives right.0 right.1 ∥₁ }
        ensures { IfOk result (λ r. ∥ gives r.0 r.1 ∥₁) };

    /// A value is right for each of two equal keys, or for neither.
    ghost same_key: { (a b : Self.Key) (o : Self.Out) → Self.Key.eq a b ≡ true → gives a o → gives b o };
}
