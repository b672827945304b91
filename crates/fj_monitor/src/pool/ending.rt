//! What follows once the workers of a pool have left.
ghost use Rattle.std.specs.Prelude.{◌≡◌, ◌++◌, ◌↔◌, IfSome, IsTrue, true, length};
ghost use Rattle.fj_gate.specs.Numbers.{IsNumbersBelow};
ghost use Rattle.fj_rules.specs.Epochs.{IsPast};
ghost use Rattle.fj_calls.specs.Cores.{AreParts};
ghost use Rattle.fj_guarded.specs.Continuing.{EndsIn};
ghost use Rattle.fj_parts.specs.Winding.{AreEmpty, AreSettled, has_terminated, submissions, tickets_of};
ghost use Rattle.fj_submitter.specs.Seats.{AreAll};

use crate::pool::Pool;
use fj_body::Body;
use fj_calls::{CoreMaking, CoreQueries, CoreView};
use fj_guarded::Naming;
use fj_parts::{Closer, History, Record, Still, Submitter};

impl<B: Body, N: Naming, C: CoreView<B>> Pool<B, N, C> {
    /// Whether these are all submitters of the pool, in order of their numbers.
    pub fn are_all(&self, submitters: &[Submitter<B, N>]) -> bool
        ensures { IsTrue result ↔ AreAll (length N.lanes) submitters.now }
    {
        if submitters.len() != self.shell.lanes {
            return false;
        }
        for n in 0..submitters.len() {
            if submitters[n].number().0 as usize != n {
                return false;
            }
        }
        true
    }

    /// Shares the pool no more, after its workers have left. It never blocks and allocates nothing. Java has no counterpart.
    pub fn stand_still(self) -> (Still<B, N, C>, History<B, N>)
        // The history ends with the core as it stands still.
        ensures { EndsIn result.1 result.0 }
    {
        let Pool {
            alloc: _,
            core,
            shell: _,
            log,
        } = self;
        core.into_inner().stand_still(log)
    }
}

impl<B: Body, N: Naming, C: CoreMaking<B> + CoreQueries<B>> Pool<B, N, C> {
    /// Takes the pool apart, after its workers have left. It never blocks and allocates nothing; bodies that the core still holds are dropped.
    /// Java has no counterpart.
    ///
    /// Precondition: these are all submitters, in order of their numbers.
    pub fn wind_up(self, submitters: Vec<Submitter<B, N>>, closer: Closer<N>) -> Record<B>
        requires { AreAll (length N.lanes) submitters.items }
        ensures run { IsPast result.machine }
        // The machine has the mode and the limits of the pool.
        ensures pool { result.machine.pool ≡ N.pool }
        // The parts that were handed out, and then those of the record, are the history up to the last seal.
        ensures history { AreParts (result.archive.handed ++ result.archive.kept) result.machine }
        // What was taken in from a submitter, and then what its lane still holds, is what it pushed, bodies and all.
        ensures lanes { AreSettled result.machine.events result.bookings.bookings submitters.items result.lanes.items }
        // The tickets that were drawn are the numbers below that of the admissions, which is the closing number of a closed gate.
        ensures admitted { IsNumbersBelow result.admitted (tickets_of submitters.items) }
        ensures closed { result.closed ≡ closer.closed }
        ensures at_close { IfSome result.closed (λ n. result.admitted ≡ n) }
        // As many were taken in as the machine accepted.
        ensures taken_in { length result.bookings.bookings ≡ submissions result.machine }
        ensures terminated { result.terminated ≡ has_terminated closer.closed result.machine }
        ensures emptied { result.terminated ≡ true → AreEmpty result.lanes.items }
    {
        let (still, _history) = self.stand_still();
        still.wind_up(submitters, closer)
    }
}
