ghost use Rattle.std.specs.Prelude.{◌≡◌};

use crate::body::Body;
use std::marker::Model;

/// A result with the key of the body that gave it, for which it is right.
#[derive(Drop)]
pub struct KeptResult<B: Body> {
    key: B::Key,
    out: B::Out,
}

impl<B: Body> Model for KeptResult<B> {
    ghost Value = { B.Key × B.Out };

    ghost view = { λ k. (k.key, k.out) };

    ghost invariant = { λ k. ∥ B.right k.key k.out ∥₁ };
}

impl<B: Body> KeptResult<B> {
    /// A result with its key. Precondition: it is right for that key.
    pub fn new(key: B::Key, out: B::Out) -> KeptResult<B>
        requires { ∥ B.right key out ∥₁ }
        ensures { result ≡ (key, out) }
    {
        KeptResult { key, out }
    }

    /// The key, and the result, which is right for it.
    pub fn into_parts(self) -> (B::Key, B::Out)
        ensures parts { result ≡ self }
        ensures right { ∥ B.right result.0 result.1 ∥₁ }
    {
        let KeptResult { key, out } = self;
        (key, out)
    }
}
