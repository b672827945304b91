ghost use Rattle.std.specs.Prelude.{◌≡◌, ◌∷◌, ◌++◌, [], Some};
ghost use Rattle.fj_fronts.specs.Logs.{IsLegal};

use crate::chosen::Chosen;
use crate::entry::{Entry, Tells};
use crate::front::Front;
use crate::log::Log;
use crate::naming::Naming;
use crate::word::{Append, Show, Token};
use std::marker::{Brand, Model, PhantomData};

/// The keeper of a log: its owner knows all entries and may append. Each log has one, which a lock may guard. It has no bytes.
pub struct Keeper<E: Entry, N: Naming> {
    pub(crate) token: Token<E>,
    pub(crate) of: PhantomData<N>,
}

impl<E: Entry, N: Naming> Model for Keeper<E, N> {
    ghost use Rattle.std.specs.Prelude.{◌≡◌, List, []};
    ghost use Rattle.fj_fronts.specs.Logs.{IsLegal};
    ghost use Rattle.fj_fronts.specs.Rule.{keeper_of};

    ghost Value = { List E };

    ghost view = { λ k. k.token.me.0.known };

    ghost invariant = { λ k. record {
      of_log : k.token.table_id ≡ N.log;
      knows : k.token.me ≡ (keeper_of k.token.me.0.known, []);
      legal : IsLegal E.may_follow k.token.me.0.known;
    } };
}

// By hand, since a derive would need `E: Drop` too.
impl<E: Entry, N: Naming> Drop for Keeper<E, N> {
    fn drop(self) {
        let Keeper { token: _, of: _ } = self;
    }
}

impl<E: Entry, N: Naming> Keeper<E, N> {
    /// Appends the entry that `teller` determines. The value is not read. It costs one load. Precondition: the entry may come next.
    #[inline(always)]
    pub fn append<T: Tells<E>>(&mut self, log: &Log<E, N>, teller: &T)
        requires follows { E.may_follow self.old (T.told teller.now) }
        ensures { self.new ≡ self.old ++ T.told teller.now ∷ [] }
    {
        append_as::<E, N, Brand, T>(self, log, teller);
    }

    /// A new front, which knows all entries. It costs one load.
    #[inline(always)]
    pub fn front(&mut self, log: &Log<E, N>) -> Front<E, N>
        ensures front { result ≡ self.old }
        ensures stays { self.new ≡ self.old }
    {
        Front {
            token: log.word.shared.split_seat::<Show>(&mut self.token),
            of: PhantomData,
        }
    }

    /// Proves that each entry might follow those before it. It does nothing.
    #[inline(always)]
    pub fn legal(&self)
        ensures { IsLegal E.may_follow self.now }
    {
        let _token = &self.token;
    }
}

/// Appends the chosen entry. Preconditions: it is that of `_teller`; it may come next.
#[inline(always)]
fn append_as<E: Entry, N: Naming, C: Chosen<E>, T: Tells<E>>(
    keeper: &mut Keeper<E, N>,
    log: &Log<E, N>,
    _teller: &T,
)
    requires chosen { C.chosen ≡ Some (T.told _teller.now) }
    requires follows { E.may_follow keeper.old (T.told _teller.now) }
    ensures { keeper.new ≡ keeper.old ++ T.told _teller.now ∷ [] }
{
    log.word.shared.load::<Append<C>>(&mut keeper.token, 0);
}
