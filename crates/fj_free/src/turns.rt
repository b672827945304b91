use crate::free::Free;
use fj_run::{Ask, Heard};

/// A job in turns, of which nothing is promised.
pub trait Turns: Drop + Sized {
    /// Its result.
    type Out: Drop;

    /// One turn: what it asks, having heard this.
    fn turn(&mut self, heard: Heard<Free<Self>>) -> Ask<Free<Self>>;
}
