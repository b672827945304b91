ghost use Rattle.std.specs.Prelude.{◌≡◌, Some, [], ◌++◌};

use crate::chosen::{Chosen, TheChosen};
use crate::values::{Agreed, Known, Tells};
use crate::word::{Anew, Half, Loads, Meet, Spare, Together, Token, Word};
use std::marker::{Brand, Model};
use std::mem;
use std::sync::Arc;

/// One of the two ends of a pair. It knows a value, the same as the other end. It may be sent to another thread. Java has no counterpart.
pub struct End<V: Known> {
    pub(crate) table: Arc<Word<V>>,
    pub(crate) token: Token<V>,
}

impl<V: Known> Model for End<V> {
    ghost use Rattle.std.specs.Prelude.{◌≡◌, [], length, slice_index_or};
    ghost use Rattle.std.specs.Arc.{arc_value};
    ghost use Rattle.fj_agreement.specs.Ends.{EndState};

    ghost Value = { EndState V };

    // There is always exactly one value, so the default is never used.
    ghost view = { λ e. record { pair = e.token.table_id; value = slice_index_or e.token.me.0 0 V.first } };

    ghost invariant = { λ e. record {
      place : (arc_value e.table).shared.table_id ≡ e.token.table_id;
      one_word : e.token.table_id.words ≡ 1;
      no_slot : e.token.me.1 ≡ [];
      one_value : length e.token.me.0 ≡ 1;
    } };
}

// By hand, since a derive would need `V: Drop` too.
impl<V: Known> Drop for End<V> {
    fn drop(self) {
        let End { table: _, token: _ } = self;
    }
}

impl<V: Known> End<V> {
    /// Proves that the two ends know the same value. Nothing changes. It costs four loads.
    ///
    /// Precondition: they are the ends of one pair.
    #[inline(always)]
    pub fn meet(&mut self, other: &mut End<V>)
        requires pair { self.old.pair ≡ other.old.pair }
        ensures same { self.old.value ≡ other.old.value }
        ensures stays { (self.new ≡ self.old) × (other.new ≡ other.old) }
    {
        let loads = &self.table.shared;
        gather(loads, &mut self.token, &mut other.token);
        loads.load::<Meet>(&mut self.token, 0);
        other.token = loads.split_seat::<Half>(&mut self.token);
    }

    /// Both ends know a new value from now on, which the caller picks. It costs three loads.
    ///
    /// Precondition: they are the ends of one pair.
    #[inline(always)]
    pub fn agree<A: Agreed<V>>(&mut self, other: &mut End<V>)
        requires pair { self.old.pair ≡ other.old.pair }
        ensures value { (self.new.value ≡ A.value) × (other.new.value ≡ A.value) }
        ensures stays { (self.new.pair ≡ self.old.pair) × (other.new.pair ≡ other.old.pair) }
    {
        let loads = &self.table.shared;
        gather(loads, &mut self.token, &mut other.token);
        other.token = loads.split_seat::<Anew<A>>(&mut self.token);
    }

    /// Both ends know the value of `teller` from now on, which is not read. It costs three loads.
    ///
    /// Precondition: they are the ends of one pair.
    #[inline(always)]
    pub fn agree_on<T: Tells<V>>(&mut self, other: &mut End<V>, teller: &T)
        requires pair { self.old.pair ≡ other.old.pair }
        ensures value { (self.new.value ≡ T.told teller.now) × (other.new.value ≡ T.told teller.now) }
        ensures stays { (self.new.pair ≡ self.old.pair) × (other.new.pair ≡ other.old.pair) }
    {
        agree_as::<V, Brand, T>(self, other, teller);
    }
}

/// Both ends know the chosen value from now on. Preconditions: it is the value of `_teller`; they are the ends of one pair.
#[inline(always)]
fn agree_as<V: Known, C: Chosen<V>, T: Tells<V>>(one: &mut End<V>, other: &mut End<V>, _teller: &T)
    requires chosen { C.chosen ≡ Some (T.told _teller.now) }
    requires pair { one.old.pair ≡ other.old.pair }
    ensures value { (one.new.value ≡ T.told _teller.now) × (other.new.value ≡ T.told _teller.now) }
    ensures stays { (one.new.pair ≡ one.old.pair) × (other.new.pair ≡ other.old.pair) }
{
    one.agree::<TheChosen<C>>(other);
}

/// Moves what the other token knows into this one. Preconditions: both are of this word, and hold no slot.
#[inline(always)]
fn gather<V: Known>(loads: &Loads<V>, token: &mut Token<V>, other: &mut Token<V>)
    requires table { (token.old.table_id ≡ loads.now.table_id) × (other.old.table_id ≡ loads.now.table_id) × (loads.now.table_id.words ≡ 1) }
    requires no_slot { (token.old.me.1 ≡ []) × (other.old.me.1 ≡ []) }
    ensures table { (token.new.table_id ≡ token.old.table_id) × (other.new.table_id ≡ other.old.table_id) }
    ensures token { token.new.me ≡ (token.old.me.0 ++ other.old.me.0, []) }
    ensures other { other.new.me ≡ ([], []) }
{
    // A join takes the other token by value, so a placeholder is left for it.
    let spare = loads.split_seat::<Spare>(token);
    let taken = mem::replace(other, spare);
    loads.join_seat::<Together>(token, taken);
}
