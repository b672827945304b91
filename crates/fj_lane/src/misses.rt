ghost use Rattle.std.specs.Prelude.{◌≡◌, ℕ, ◌+◌};
ghost use Rattle.std.specs.Borrow.{ftrue};

use std::marker::{Model, PhantomData};

/// How often there was nothing: takes of a [`Drain`](crate::Drain) that gave none, or seals of the core above for which there was no memory.
///
/// It exists in proofs alone: it has no bytes, and its calls do nothing at run time. A real counter could overflow.
#[derive(Drop)]
pub struct Misses {
    of: PhantomData<()>,
    pub ghost number: { ℕ },
}

impl Model for Misses {
    ghost also_owns = { λ _. ftrue };
}

// It owns nothing.
unsafe impl Send for Misses {}

impl Misses {
    /// 0: it has not happened yet.
    pub fn zero() -> Misses
        ensures { result.number ≡ 0 }
    {
        Misses { of: PhantomData }
    }

    /// One more.
    pub fn next(&self) -> Misses
        ensures { result.number ≡ self.now.number + 1 }
    {
        Misses { of: PhantomData }
    }
}
