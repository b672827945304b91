//! The parts of a pool under its name.
ghost use Rattle.std.specs.Prelude.{◌≡◌, ◌≤◌, [], All, IfOk, length, vec_capacity, vec_len};
ghost use Rattle.fj_submitter.specs.Lanes.{lanes_of};
ghost use Rattle.fj_parts.specs.Holdings.{IsTied, hands_of};
ghost use Rattle.fj_submitter.specs.Seats.{AreAll, IsNamed};

use crate::hand::Hand;
use crate::locked::Locked;
use crate::parts::Parts;
use crate::tied::Tied;
use fj_body::Body;
use fj_calls::{CoreQueries, CoreView};
use fj_guarded::{Guarded, Log, LogOf, Naming, Room, Unneeded};
use fj_rules::OutOfMemory;
use fj_submitter::{Closer, Seat, Submitter, name_all};
use std::alloc::{AllocError, Global};
use std::marker::PhantomData;

/// The parts of a pool under its name: by their types they belong together, whichever thread has them.
#[derive(Drop)]
pub struct Named<B: Body, N: Naming, C: CoreView<B>> {
    /// What the lock guards.
    pub locked: Locked<B, N, C>,
    /// The history, which threads share.
    pub log: Log<B, N>,
    /// A hand for each worker, in order.
    pub hands: Vec<Hand<B, N>>,
    /// A submitter for each submitter's number, in order.
    pub submitters: Vec<Submitter<B, N>>,
    /// What shuts the pool down.
    pub closer: Closer<N>,
}

impl<B: Body, C: CoreQueries<B> + Drop> Parts<B, C> {
    /// Puts the parts under a name.
    ///
    /// `OutOfMemory` if an allocation fails. Precondition: the name is that of these parts.
    pub fn named<N: Naming>(self, alloc: Global) -> Result<Named<B, N, C>, OutOfMemory>
        requires gate { N.gate ≡ self.closer.gate }
        requires lanes { N.lanes ≡ lanes_of self.core.lanes }
        requires pool { N.pool ≡ self.core.store.past.pool }
        requires hands { N.hands ≡ self.pairs }
        requires log { N.log ≡ self.log }
        ensures core { IfOk result (λ r. r.locked ≡ self.core) }
        ensures hands { IfOk result (λ r. r.hands.items ≡ self.hands) }
        ensures workers { IfOk result (λ r. length r.hands.items ≡ length N.hands) }
        ensures submitters { IfOk result (λ r. r.submitters.items ≡ self.seats) }
        ensures closer { IfOk result (λ r. r.closer ≡ self.closer) }
        ensures all { IfOk result (λ r. AreAll (length N.lanes) r.submitters.items) }
    {
        let Parts {
            core,
            hands,
            ends,
            seats,
            closer,
            log,
        } = self;
        let Ok(beside) = Beside::new(alloc, hands, seats) else {
            // Explicit drops are proved faster.
            drop(core);
            drop(ends);
            drop(log);
            return Err(OutOfMemory);
        };
        let Beside {
            room,
            hands,
            submitters,
        } = beside;
        let (log, keeper) = log.named::<LogOf<N>>();
        Ok(Named {
            locked: Locked::new(Guarded::new(core, room), ends, keeper),
            log,
            hands,
            submitters,
            closer: Closer::new(closer),
        })
    }
}

/// Named parts without the core: all that needs memory.
#[derive(Drop)]
struct Beside<B, N: Naming> {
    room: Room<B>,
    hands: Vec<Hand<B, N>>,
    submitters: Vec<Submitter<B, N>>,
}

impl<B: Drop, N: Naming> Beside<B, N> {
    /// An error only if out of memory. Precondition: the name is that of these hands and seats.
    fn new(
        alloc: Global,
        hands: Vec<Tied<B>>,
        seats: Vec<Seat<B>>,
    ) -> Result<Beside<B, N>, AllocError>
        requires hands { All (λ h. IsTied N.hands h) hands.items }
        requires named { All (λ s. IsNamed N.gate N.lanes s) seats.items }
        ensures entrants { IfOk result (λ r. (r.room.entrants.items ≡ []) × (vec_len seats ≤ vec_capacity r.room.entrants)) }
        ensures rests { IfOk result (λ r. (r.room.rests.items ≡ []) × (vec_len seats ≤ vec_capacity r.room.rests)) }
        ensures hands { IfOk result (λ r. r.hands.items ≡ hands_of hands.items) }
        ensures submitters { IfOk result (λ r. r.submitters.items ≡ seats.items) }
    {
        Ok(Beside {
            room: Room::new(alloc, seats.len())?,
            hands: name_hands(alloc, hands)?,
            submitters: name_all(alloc, seats)?,
        })
    }
}

/// The hands, under the name. Precondition: the name is that of their ends.
fn name_hands<B: Drop, N: Naming>(
    alloc: Global,
    tied: Vec<Tied<B>>,
) -> Result<Vec<Hand<B, N>>, AllocError>
    requires { All (λ h. IsTied N.hands h) tied.items }
    ensures { IfOk result (λ v. v.items ≡ hands_of tied.items) }
{
    let mut hands = Vec::with_capacity(alloc, tied.len())?;
    for hand in tied {
        let Tied { held, end } = hand;
        hands.push(Hand {
            held,
            end,
            unneeded: Unneeded::new(alloc)?,
            of: PhantomData,
        })?;
    }
    Ok(hands)
}
