//! What stands in a log.

/// A type whose values are entries of a log. No such value is ever made: it exists in proofs alone.
pub trait Entry {
    ghost use Rattle.std.specs.Prelude.{List};

    /// Whether an entry may come next, after these.
    ghost may_follow: { List Self → Self → Type 0 };
}

/// A type of the program whose values each determine an entry, as a core its state.
pub trait Tells<E> {
    /// The entry.
    ghost told: { Self → E };
}
