//! How a call picks a value to agree on, by an argument that has it.
use crate::values::{Agreed, Known};
use std::marker::{Brand, PhantomData};

/// A value to agree on, or none: a call can pick only over an impl without bounds, which does not have a value of every type.
pub trait Chosen<V> {
    ghost use Rattle.std.specs.Prelude.{Option};

    /// That value.
    ghost chosen: { Option V };
}

impl<V> Chosen<V> for Brand {
    ghost use Rattle.std.specs.Prelude.{None};

    ghost chosen = { None };
}

/// The value that was chosen.
pub struct TheChosen<C> {
    of: PhantomData<C>,
}

impl<V: Known, C: Chosen<V>> Agreed<V> for TheChosen<C> {
    ghost use Rattle.std.specs.Option.{unwrap_or};

    ghost value = { unwrap_or C.chosen V.first };
}
