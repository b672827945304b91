ghost use Rattle.std.specs.Prelude.{◌≡◌, []};
ghost use Rattle.fj_parts.specs.Winding.{tickets_of};

use crate::running::Running;
use fj_body::Body;
use fj_guarded::Naming;
use std::sync::Wait;

/// A player: the code to which a pool is lent while its workers work, as the block of `try (ForkJoinPool pool = ..)`.
pub trait Play<B: Body> {
    ghost use Rattle.fj_run.specs.Playing.{RunningState};

    /// The result of the play.
    type Out: Drop;

    /// A relation of the result to what the player has seen of the history at the end of the play, and to what it has submitted.
    /// By default nothing.
    ghost told: { RunningState B B.Key B.Out → Self.Out → Type 0 } = { λ _ _. Unit {0} };

    /// Submits bodies, and asks for their outcomes. Once it returns the pool is shut down: what was submitted is run, and outcomes that were
    /// not asked for are in the record. Precondition: nothing was submitted yet.
    fn play<N: Naming, R: Wait>(&mut self, pool: &mut Running<'_, '_, B, N, R>) -> Self::Out
        requires unused { tickets_of pool.old.seats ≡ [] }
        ensures told { told pool.new result };
}
