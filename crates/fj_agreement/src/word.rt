//! The atomic word of a pair, the loads of it, and what the seats on it know.
//!
//! The word is 0 and stays 0. What an end knows is the view of its seat on the word. A view changes only at a step on the word: so each
//! change, and each comparison of two views, is one load.
//!
//! A view is a list: the value, once for each end that the seat has. The invariant: all entries of all views are one value, and there are
//! two of them. To meet or to agree puts both into one seat:
//!
//! | Load | The one seat | The other seat | What is learnt, or why it keeps the invariant |
//! |---|---|---|---|
//! | | v | w | |
//! | `Spare`: a new seat without a value is split off, and replaces the other one | v | | |
//! | `Together`: the other seat, which was taken out, is joined to the one | v w | | |
//! | `Meet`, if they meet | v w | | v and w are the same, by the invariant |
//! | `Half`: split in two again | v | w | |
//! | `Anew`, if they agree: both get a new value | a | a | the one seat had both values, so no other seat has any |
use crate::values::{Agreed, Known};
use atomic_table::{Join, Play, Seat, Shared, Split, Table, TableRule};
use std::alloc::Global;
use std::collections::LinkedList;
use std::marker::PhantomData;

/// What a seat knows: the value, once for each end that it has. It exists in proofs alone: no list is made.
pub type Knowledge<V> = LinkedList<V>;

/// The invariant over what all seats know.
pub struct AgreementRule;

impl<V: Known> TableRule<(), Knowledge<V>, ()> for AgreementRule {
    ghost use Rattle.std.specs.Prelude.{[], ◌∷◌};
    ghost use Rattle.fj_agreement.specs.Rule.{IsAgreed};

    ghost holds = { λ _. IsAgreed };

    // The first seat has both ends.
    ghost first = { λ _. V.first ∷ V.first ∷ [] };
}

/// The word. It needs no slots beside it.
pub type Word<V> = Table<(), Knowledge<V>, (), AgreementRule, Global>;

/// The part of the word that has the loads.
pub type Loads<V> = Shared<(), Knowledge<V>, (), AgreementRule>;

/// The right to step on the word, with what its holder knows. It has no bytes.
pub type Token<V> = Seat<(), Knowledge<V>>;

/// A load by which a seat learns that all it knows is one value.
pub struct Meet;

impl<V> Play<(), Knowledge<V>> for Meet {
    ghost use Rattle.fj_agreement.specs.Rule.{Meets};

    ghost then = { Meets };
}

/// A seat that knows nothing is split off.
pub struct Spare;

impl<V> Split<Knowledge<V>> for Spare {
    ghost use Rattle.std.specs.Prelude.{[]};

    ghost left = { λ known. known };

    ghost right = { λ _. [] };
}

/// A seat takes over what another one knows.
pub struct Together;

impl<V> Join<Knowledge<V>> for Together {
    ghost use Rattle.std.specs.Prelude.{[], ◌++◌};

    ghost both = { λ known more. known ++ more };

    ghost spent = { [] };
}

/// A seat with both ends keeps the first value, and a new one gets the other.
pub struct Half;

impl<V> Split<Knowledge<V>> for Half {
    ghost use Rattle.std.specs.Prelude.{take, drop};

    ghost left = { λ known. take 1 known };

    ghost right = { λ known. drop 1 known };
}

/// A seat with both ends gets a new value, and so does a new seat.
pub struct Anew<A> {
    value: PhantomData<A>,
}

impl<V, A: Agreed<V>> Split<Knowledge<V>> for Anew<A> {
    ghost use Rattle.std.specs.Prelude.{[], ◌∷◌};

    ghost left = { λ _. A.value ∷ [] };

    ghost right = { λ _. A.value ∷ [] };
}
