//! The history of a pool: one log of the states of its core.
use crate::guarded::Guarded;
use fj_body::Body;
use fj_calls::CoreView;
use fj_fronts::{Entry, Tells};
use fj_submitter::Naming;
use std::marker::{Model, PhantomData};

/// The name of a pool's log.
pub struct LogOf<N> {
    of: PhantomData<N>,
}

impl<N: Naming> fj_fronts::Naming for LogOf<N> {
    ghost log = { N.log };
}

/// A moment of a pool: a state of its core. It exists in proofs alone: no value of it is made.
pub struct Moment<B: Body> {
    of: PhantomData<B>,
}

impl<B: Body> Model for Moment<B> {
    ghost use Rattle.fj_calls.specs.Cores.{CoreState};
    ghost use Rattle.fj_guarded.specs.Moments.{no_core};

    ghost Value = { CoreState B B.Key B.Out };

    ghost view = { λ _. no_core };
}

impl<B: Body> Entry for Moment<B> {
    ghost use Rattle.fj_guarded.specs.Continuing.{ContinuesAll};

    ghost may_follow = { λ log core. ContinuesAll log core };
}

impl<B: Body, N: Naming, C: CoreView<B>> Tells<Moment<B>> for Guarded<B, N, C> {
    ghost told = { λ core. core };
}

/// A beginning of the history of a pool that was seen. It may be sent to another thread. It has no bytes.
pub type Front<B, N> = fj_fronts::Front<Moment<B>, LogOf<N>>;

/// Whoever has it knows the whole history and may append to it.
pub type Keeper<B, N> = fj_fronts::Keeper<Moment<B>, LogOf<N>>;

/// The history of a pool, which threads share by reference.
pub type Log<B, N> = fj_fronts::Log<Moment<B>, LogOf<N>>;
