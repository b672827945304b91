//! How a call picks the entry to append, by an argument that determines it.
use std::marker::Brand;

/// An entry, or none: a call can pick only over an impl without bounds, which does not have an entry of every type.
pub trait Chosen<E> {
    ghost use Rattle.std.specs.Prelude.{Option};

    /// That entry.
    ghost chosen: { Option E };
}

impl<E> Chosen<E> for Brand {
    ghost use Rattle.std.specs.Prelude.{None};

    ghost chosen = { None };
}
