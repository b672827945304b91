ghost use Rattle.std.specs.Prelude.{◌≡◌, ◌<◌, IfSome, length};
ghost use Rattle.fj_slots.specs.Hands.{hook_number, newest_body};
ghost use Rattle.fj_body.specs.Turns.{HeardRight};
ghost use Rattle.fj_guarded.specs.Turning.{MayAsk, TakesTurn};

use crate::holding::Holding;
use crate::turns::take_turn;
use fj_agreement::End;
use fj_body::{Ask, Body, Heard};
use fj_guarded::{Naming, Unneeded};
use fj_rules::{Serial, WorkerId};
use std::marker::{Model, PhantomData};

/// What a worker has in hand: the bodies that it has begun, a hook, and its scan word. A pool makes one for each worker. In Java it is the
/// stack of a `ForkJoinWorkerThread`.
///
/// Its type ties it to its pool. It has one end of a pair whose other end is guarded by the lock; by these, what it holds is known to be
/// what the pool has for its worker. So nothing is compared when the worker gets the lock.
#[derive(Drop)]
pub struct Hand<B, N: Naming> {
    pub(crate) held: fj_slots::Hand<B>,
    pub(crate) end: End<Holding>,
    pub(crate) unneeded: Unneeded<B>,
    pub(crate) of: PhantomData<N>,
}

impl<B, N: Naming> Model for Hand<B, N> {
    ghost use Rattle.std.specs.Prelude.{◌≡◌, Some, slice_get};
    ghost use Rattle.fj_slots.specs.Hands.{HandState};
    ghost use Rattle.fj_parts.specs.Holdings.{holding_of};

    ghost Value = { HandState B };

    ghost view = { λ h. h.held };

    ghost invariant = { λ h. record {
      tied : slice_get N.hands h.held.worker ≡ Some h.end.pair;
      known : h.end.value ≡ holding_of h.held;
    } };
}

impl<B: Drop, N: Naming> Hand<B, N> {
    /// The worker whose hand it is.
    #[inline(always)]
    pub fn worker(&self) -> WorkerId
        ensures number { result ≡ self.now.worker }
        ensures within { result < length N.hands }
    {
        self.held.worker()
    }

    /// The task of the running body, if there is one.
    #[inline(always)]
    pub fn running(&self) -> Option<Serial>
        ensures { result ≡ hook_number (newest_body self.now.stack) }
    {
        self.held.running()
    }

    /// The completer whose hook it has, if it has one.
    #[inline(always)]
    pub fn hooked(&self) -> Option<Serial>
        ensures { result ≡ hook_number self.now.hook }
    {
        self.held.hooked()
    }

    /// Drops the bodies that are not needed any more. Call it once the lock is free.
    #[inline(always)]
    pub fn clear(&mut self)
        ensures { self.new ≡ self.old }
    {
        self.unneeded.clear();
    }
}

impl<B: Body, N: Naming> Hand<B, N> {
    /// The hook, or else the running body, takes a turn, in which it hears this. None if the hand is empty.
    #[inline(always)]
    pub fn take_turn(&mut self, heard: Heard<B>) -> Option<Ask<B>>
        requires { HeardRight B.right heard }
        ensures takes { TakesTurn B.key_of B.moves self.old heard result self.new }
        ensures asks { IfSome result (λ ask. MayAsk B.right B.key_of self.new ask) }
    {
        take_turn(&mut self.held, heard)
    }
}
