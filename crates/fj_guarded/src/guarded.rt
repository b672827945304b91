ghost use Rattle.std.specs.Prelude.{◌≡◌, ◌≤◌, [], IfOk, length, vec_capacity};
ghost use Rattle.fj_submitter.specs.Lanes.{lanes_of};

mod outside;
mod serve;
mod sleeping;

use fj_body::Body;
use fj_calls::{CoreQueries, CoreView};
use fj_gate::Entrant;
use fj_lane::Rest;
use fj_machine::Machine;
use fj_rules::SubId;
use fj_submitter::Naming;
use std::alloc::{AllocError, Global};
use std::marker::{Model, PhantomData};

/// What the lock of a pool guards: its core, with the account of who sleeps, and room for the rests of the lanes when the pool is wound up.
pub struct Guarded<B: Body, N: Naming, C: CoreView<B>> {
    pub(crate) core: C,
    pub(crate) entrants: Vec<Entrant>,
    pub(crate) rests: Vec<Rest<B>>,
    /// The submitter at which the next look at the lanes begins: the first for which the last look found no room.
    pub(crate) first: SubId,
    pub(crate) of: PhantomData<N>,
}

// By hand: a derived one is proved in each crate that drops such a value.
impl<B: Body, N: Naming, C: CoreView<B> + Drop> Drop for Guarded<B, N, C> {
    fn drop(self) {
        let Guarded {
            core: _,
            entrants: _,
            rests: _,
            first: _,
            of: _,
        } = self;
    }
}

impl<B: Body, N: Naming, C: CoreView<B>> Model for Guarded<B, N, C> {
    ghost use Rattle.std.specs.Prelude.{◌≡◌, ◌<◌, ◌≤◌, [], length, vec_capacity};
    ghost use Rattle.fj_calls.specs.Cores.{CoreState};
    ghost use Rattle.fj_submitter.specs.Lanes.{lanes_of};

    ghost Value = { CoreState B B.Key B.Out };

    ghost view = { λ g. C.state g.core };

    ghost invariant = { λ g. record {
      lanes : lanes_of (C.state g.core).lanes ≡ N.lanes;
      no_entrants : g.entrants.items ≡ [];
      entrant_room : length N.lanes ≤ vec_capacity g.entrants;
      no_rests : g.rests.items ≡ [];
      rest_room : length N.lanes ≤ vec_capacity g.rests;
      pool : (C.state g.core).store.past.pool ≡ N.pool;
      begins : g.first < N.pool.limits.submitters;
    } };
}

impl<B: Body, N: Naming, C: CoreQueries<B>> Guarded<B, N, C> {
    /// A new pool's state. Preconditions: the name is that of the core, and there is room for its lanes.
    pub fn new(core: C, room: Room<B>) -> Guarded<B, N, C>
        requires lanes { lanes_of (C.state core).lanes ≡ N.lanes }
        requires pool { (C.state core).store.past.pool ≡ N.pool }
        requires entrants { (room.entrants.items ≡ []) × (length N.lanes ≤ vec_capacity room.entrants) }
        requires rests { (room.rests.items ≡ []) × (length N.lanes ≤ vec_capacity room.rests) }
        ensures { result ≡ C.state core }
    {
        // For the proof: there is a first submitter.
        let _limits = core.machine().limits();
        Guarded {
            core,
            entrants: room.entrants,
            rests: room.rests,
            first: SubId(0),
            of: PhantomData,
        }
    }

    /// The machine.
    pub fn machine(&self) -> &Machine
        ensures { result.now ≡ self.now.store.past }
    {
        self.core.machine()
    }
}

impl<B: Body, N: Naming, C: CoreView<B>> Guarded<B, N, C> {
    /// The core, and empty lists with room for the entrants and for the rests of the lanes.
    pub fn into_parts(self) -> (C, Vec<Entrant>, Vec<Rest<B>>)
        ensures core { C.state result.0 ≡ self }
        ensures lanes { lanes_of (C.state result.0).lanes ≡ N.lanes }
        ensures pool { (C.state result.0).store.past.pool ≡ N.pool }
        ensures entrants { (result.1.items ≡ []) × (length N.lanes ≤ vec_capacity result.1) }
        ensures rests { (result.2.items ≡ []) × (length N.lanes ≤ vec_capacity result.2) }
    {
        let Guarded {
            core,
            entrants,
            rests,
            first: _,
            of: _,
        } = self;
        (core, entrants, rests)
    }
}

/// What the lock of a new pool guards, except its core.
#[derive(Drop)]
pub struct Room<B> {
    pub entrants: Vec<Entrant>,
    pub rests: Vec<Rest<B>>,
}

impl<B> Room<B> {
    /// For so many lanes. An error only if out of memory.
    pub fn new(alloc: Global, lanes: usize) -> Result<Room<B>, AllocError>
        ensures entrants { IfOk result (λ r. (r.entrants.items ≡ []) × (lanes ≤ vec_capacity r.entrants)) }
        ensures rests { IfOk result (λ r. (r.rests.items ≡ []) × (lanes ≤ vec_capacity r.rests)) }
    {
        Ok(Room {
            entrants: Vec::with_capacity(alloc, lanes)?,
            rests: Vec::with_capacity(alloc, lanes)?,
        })
    }
}
