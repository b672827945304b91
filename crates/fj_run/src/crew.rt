use crate::play::Play;
use crate::running::Running;
use crate::types::Pool;
use crate::unused::Unused;
use fj_body::{Body, Turnstile};
use fj_crew::{Caller, Crew};
use fj_guarded::{Front, Naming};
use fj_parts::{Closer, Hand};
use fj_submitter::Submitters;
use std::marker::Model;
use std::sync::Wait;

/// What the threads of a pool share.
#[derive(Drop)]
pub struct PoolCrew<'p, 'r, 't, B: Body, N: Naming, T, R> {
    /// The pool.
    pub pool: &'p Pool<B, N>,
    /// The runtime, for waits.
    pub rt: &'r R,
    /// Called before the first turn of each body.
    pub turnstile: &'t T,
    /// The limit of live tasks.
    pub places: u32,
}

/// The outcome of a pool's run, and what is needed to wind it up. What the player tells at the end is its invariant, as a closure with a loop has
/// no clause.
#[derive(Drop)]
pub struct Ran<B: Body, N: Naming, P: Play<B, Out = O>, O> {
    /// The player.
    pub player: P,
    /// The result of the play, and what the player has seen of the history. None if it did not begin, as a thread could not be started.
    pub played: Option<(O, Front<B, N>)>,
    /// The submitters of the pool.
    pub submitters: Submitters<B, N>,
    /// Its closer.
    pub closer: Closer<N>,
}

impl<B: Body, N: Naming, P: Play<B, Out = O>, O> Model for Ran<B, N, P, O> {
    ghost use Rattle.fj_run.specs.Playing.{HasTold};

    ghost Value = { Unit {0} };

    ghost view = { λ _. tt };

    ghost invariant = { λ r. HasTold P.told r.played r.submitters.all.items };
}

impl<B: Body, N: Naming, T: Turnstile, R: Wait> Crew<Hand<B, N>>
    for PoolCrew<'_, '_, '_, B, N, T, R> {
    fn number_of(&self, hand: &Hand<B, N>) -> usize {
        hand.worker().0 as usize
    }

    /// Works until the pool has terminated.
    fn work(&self, hand: &mut Hand<B, N>) {
        // If the core is stuck, each thread that awaits an outcome gets `LogFull`.
        let _left = self.pool.work(self.rt, hand, self.turnstile);
    }
}

/// A player with its pool.
#[derive(Drop)]
pub struct Lead<'c, 'p, 'r, 't, B: Body, N: Naming, P, T, R> {
    /// What the threads of the pool share.
    pub crew: &'c PoolCrew<'p, 'r, 't, B, N, T, R>,
    /// The submitters of the pool.
    pub unused: Unused<B, N>,
    /// Its closer.
    pub closer: Closer<N>,
    /// The player.
    pub player: P,
}

impl<B: Body, N: Naming, P: Play<B> + Drop, T: Turnstile, R: Wait> Caller
    for Lead<'_, '_, '_, '_, B, N, P, T, R> {
    type Out = Ran<B, N, P, P::Out>;

    /// Plays, and shuts the pool down. If some workers do not work, it is stopped, and nothing was submitted.
    fn run(self, all: bool) -> Ran<B, N, P, P::Out> {
        let Lead {
            crew,
            unused,
            closer,
            player,
        } = self;
        if all {
            crew.play(unused, closer, player)
        } else {
            crew.stop(unused, closer, player)
        }
    }
}

impl<B: Body, N: Naming, T: Turnstile, R: Wait> PoolCrew<'_, '_, '_, B, N, T, R> {
    /// Plays, and shuts the pool down.
    fn play<P: Play<B> + Drop>(
        &self,
        unused: Unused<B, N>,
        mut closer: Closer<N>,
        mut player: P,
    ) -> Ran<B, N, P, P::Out> {
        let Unused { submitters } = unused;
        let mut running = Running::new(self.pool, self.rt, submitters, self.places);
        let out = player.play(&mut running);
        let (submitters, front) = running.into_ends();
        self.pool.shutdown(self.rt, &mut closer);
        Ran {
            player,
            played: Some((out, front)),
            submitters,
            closer,
        }
    }

    /// Stops the pool. Nothing was submitted.
    fn stop<P: Play<B> + Drop>(
        &self,
        unused: Unused<B, N>,
        mut closer: Closer<N>,
        player: P,
    ) -> Ran<B, N, P, P::Out> {
        let Unused { submitters } = unused;
        self.pool.shutdown_now(self.rt, &mut closer);
        Ran {
            player,
            played: None,
            submitters,
            closer,
        }
    }
}
