//! What the ends of a pair know in these tests.
use fj_agreement::{Known, Tells};
use std::marker::Model;

/// A number, in proofs alone.
pub struct Number;

impl Model for Number {
    ghost use Rattle.std.specs.Prelude.{ℕ};

    ghost Value = { ℕ };

    ghost view = { λ _. 0 };
}

impl Known for Number {
    ghost first = { 0 };
}

/// The value of a number is itself.
impl Tells<Number> for u64 {
    ghost told = { λ n. n };
}
