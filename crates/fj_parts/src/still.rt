ghost use Rattle.std.specs.Prelude.{◌≡◌, ◌++◌, ◌&&◌, IfSome, true, length};
ghost use Rattle.fj_gate.specs.Numbers.{IsNumbersBelow};
ghost use Rattle.fj_rules.specs.Epochs.{IsPast};
ghost use Rattle.fj_slots.specs.Shelves.{entries};
ghost use Rattle.fj_body.specs.Stores.{HasResults};
ghost use Rattle.fj_calls.specs.Closes.{is_number};
ghost use Rattle.fj_calls.specs.Cores.{AreParts};
ghost use Rattle.fj_parts.specs.Winding.{AreEmpty, AreSettled, has_terminated, submissions, tickets_of};
ghost use Rattle.fj_submitter.specs.Seats.{AreAll};

use crate::record::Record;
use fj_body::Body;
use fj_calls::{CoreMaking, CoreQueries, CoreView, Remains};
use fj_gate::meet as meet_gate;
use fj_guarded::{Guarded, Naming};
use fj_submitter::{Closer, Submitter, settle};
use std::marker::Model;

/// A pool that no thread shares any more: nothing happens in it until it is wound up. Java has no counterpart.
#[derive(Drop)]
pub struct Still<B: Body, N: Naming, C: CoreView<B>> {
    pub(crate) guarded: Guarded<B, N, C>,
}

impl<B: Body, N: Naming, C: CoreView<B>> Model for Still<B, N, C> {
    ghost use Rattle.fj_calls.specs.Cores.{CoreState};

    ghost Value = { CoreState B B.Key B.Out };

    ghost view = { λ s. s.guarded };
}

impl<B: Body, N: Naming, C: CoreMaking<B> + CoreQueries<B>> Still<B, N, C> {
    /// Takes the pool apart. It never blocks and allocates nothing; bodies that the core still holds are dropped. Nothing happens in the pool by
    /// that: the record is of the core as it stood still. Java has no counterpart.
    ///
    /// Precondition: these are all submitters, in order of their numbers.
    pub fn wind_up(self, submitters: Vec<Submitter<B, N>>, closer: Closer<N>) -> Record<B>
        requires { AreAll (length N.lanes) submitters.items }
        ensures machine { result.machine ≡ self.store.past }
        ensures results { entries result.results ≡ entries self.store.results }
        // No result was lost: it has that of each kept task that gave one, unless the outcome was taken or given up.
        ensures complete { HasResults result.machine (entries result.results) self.store.taken }
        ensures bookings { result.bookings.bookings ≡ self.bookings }
        ensures parts { (result.archive.handed ≡ self.handed) × (result.archive.kept ≡ self.parts) }
        ensures run { IsPast result.machine }
        ensures pool { result.machine.pool ≡ N.pool }
        ensures history { AreParts (result.archive.handed ++ result.archive.kept) result.machine }
        ensures lanes { AreSettled result.machine.events result.bookings.bookings submitters.items result.lanes.items }
        ensures admitted { IsNumbersBelow result.admitted (tickets_of submitters.items) }
        ensures closed { result.closed ≡ closer.closed }
        ensures at_close { IfSome result.closed (λ n. result.admitted ≡ n) }
        ensures taken_in { length result.bookings.bookings ≡ submissions result.machine }
        ensures terminated { result.terminated ≡ has_terminated closer.closed result.machine }
        ensures emptied { result.terminated ≡ true → AreEmpty result.lanes.items }
    {
        let Still { guarded } = self;
        let (core, entrants, rests) = guarded.into_parts();
        let shut = core.machine().is_shut();
        let quiet = core.machine().is_quiescent();
        let Remains {
            machine,
            results,
            drains,
            bookings,
            archive,
        } = core.into_remains();
        let (entrants, lanes) = settle(submitters, drains, entrants, rests);
        let tickets = meet_gate(entrants, closer.into_end());
        let terminated = has_ended(tickets.closed, bookings.len() as u64, shut, quiet);
        Record {
            machine,
            results,
            bookings,
            archive,
            lanes,
            admitted: tickets.drawn,
            closed: tickets.closed,
            terminated,
        }
    }
}

/// Whether it had terminated: exactly the closing number of submissions was taken in, it was shut, and all is quiet.
fn has_ended(closed: Option<u64>, taken_in: u64, shut: bool, quiet: bool) -> bool
    ensures { result ≡ (is_number closed taken_in && shut && quiet) }
{
    closed == Some(taken_in) && shut && quiet
}
