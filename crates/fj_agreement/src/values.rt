//! What ends know, and how they agree on it.

/// A type whose values the ends of a pair may know. No such value is ever made: it exists in proofs alone.
pub trait Known {
    /// What the ends of a new pair know.
    ghost first: { Self };
}

/// A value to agree on. A caller picks it when it passes `Brand` for a type parameter with this bound.
pub trait Agreed<V> {
    /// The value.
    ghost value: { V };
}

/// A type of the program whose values each have a value to agree on, as a hand has what it holds.
pub trait Tells<V> {
    /// The value to agree on.
    ghost told: { Self → V };
}
