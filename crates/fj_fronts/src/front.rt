ghost use Rattle.std.specs.Prelude.{◌≡◌, []};
ghost use mathlib.Core.List.{IsPrefix};
ghost use Rattle.fj_fronts.specs.Logs.{IsLegal, IsLonger};

use crate::entry::Entry;
use crate::keeper::Keeper;
use crate::log::Log;
use crate::naming::Naming;
use crate::word::{Check, Compare, Show, Together, Token};
use std::marker::{Model, PhantomData};
use std::mem;

/// A beginning of a log that was seen. It may be sent to another thread, and stays a beginning of the log, whatever is appended. It has no
/// bytes.
pub struct Front<E: Entry, N: Naming> {
    pub(crate) token: Token<E>,
    pub(crate) of: PhantomData<N>,
}

impl<E: Entry, N: Naming> Model for Front<E, N> {
    ghost use Rattle.std.specs.Prelude.{◌≡◌, List, []};
    ghost use Rattle.fj_fronts.specs.Logs.{IsLegal};
    ghost use Rattle.fj_fronts.specs.Rule.{front_of};

    ghost Value = { List E };

    ghost view = { λ f. f.token.me.0.known };

    ghost invariant = { λ f. record {
      of_log : f.token.table_id ≡ N.log;
      knows : f.token.me ≡ (front_of f.token.me.0.known, []);
      legal : IsLegal E.may_follow f.token.me.0.known;
    } };
}

// By hand, since a derive would need `E: Drop` too.
impl<E: Entry, N: Naming> Drop for Front<E, N> {
    fn drop(self) {
        let Front { token: _, of: _ } = self;
    }
}

impl<E: Entry, N: Naming> Front<E, N> {
    /// Knows the whole log from now on. What was known begins it. It costs three loads.
    #[inline(always)]
    pub fn learn(&mut self, log: &Log<E, N>, keeper: &mut Keeper<E, N>)
        ensures whole { self.new ≡ keeper.old }
        ensures goes_on { IsPrefix self.old self.new }
        ensures stays { keeper.new ≡ keeper.old }
    {
        let loads = &log.word.shared;
        let whole = loads.split_seat::<Show>(&mut keeper.token);
        let known = mem::replace(&mut self.token, whole);
        loads.join_seat::<Together>(&mut keeper.token, known);
        loads.load::<Check>(&mut keeper.token, 0);
    }

    /// The longer of two fronts, which the other begins. It costs two loads.
    #[inline(always)]
    pub fn longer(self, log: &Log<E, N>, other: Front<E, N>) -> Front<E, N>
        ensures { IsLonger self other result }
    {
        let Front { mut token, of } = self;
        let Front {
            token: known,
            of: _,
        } = other;
        let loads = &log.word.shared;
        loads.join_seat::<Together>(&mut token, known);
        loads.load::<Compare>(&mut token, 0);
        Front { token, of }
    }

    /// A copy. It costs one load.
    #[inline(always)]
    pub fn again(&mut self, log: &Log<E, N>) -> Front<E, N>
        ensures copy { result ≡ self.old }
        ensures stays { self.new ≡ self.old }
    {
        Front {
            token: log.word.shared.split_seat::<Show>(&mut self.token),
            of: PhantomData,
        }
    }

    /// Proves that each entry might follow those before it. It does nothing.
    #[inline(always)]
    pub fn legal(&self)
        ensures { IsLegal E.may_follow self.now }
    {
        let _token = &self.token;
    }
}
