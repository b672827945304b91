//! The atomic word of a log, the loads of it, and what the seats on it know.
//!
//! The word is 0 and stays 0. What a keeper or a front knows is the view of its seat on the word. A view changes only at a step on the
//! word: so each append, and each comparison of two views, is one load.
//!
//! The invariant: there is a log. At most one seat is the keeper's, and knows all of it; what any seat knows is a beginning of it.
//!
//! | Load | The seat | Another seat | What is learnt, or why it keeps the invariant |
//! |---|---|---|---|
//! | `Append`, by the keeper | log, e | | the log grows by e; each beginning of it still is one |
//! | `Show`: a front is split off | known | known | |
//! | `Together`: a front is joined to the keeper, or to a front | known, beside | | both are beginnings of the log |
//! | `Check`, by the keeper | log | | what stood beside begins the log |
//! | `Compare`, by a front | the longer | | of two beginnings of one log one begins the other |
use crate::chosen::Chosen;
use atomic_table::{Join, Play, Seat, Split, Table, TableRule};
use std::alloc::Global;
use std::collections::LinkedList;
use std::marker::PhantomData;

/// What a seat knows. It exists in proofs alone: no value of it is made.
pub struct Knowledge<E> {
    /// Whether it is the keeper's. One seat at most is.
    pub is_keeper: bool,
    /// A beginning of the log: at the keeper's seat all of it.
    pub known: LinkedList<E>,
    /// What a seat knew that was joined to this one.
    pub beside: LinkedList<E>,
}

/// The invariant over what all seats know.
pub struct LogRule;

impl<E> TableRule<(), Knowledge<E>, ()> for LogRule {
    ghost use Rattle.std.specs.Prelude.{[]};
    ghost use Rattle.fj_fronts.specs.Rule.{IsLog, keeper_of};

    ghost holds = { λ _. IsLog };

    // The first seat is the keeper's.
    ghost first = { λ _. keeper_of [] };
}

/// The word. It needs no slots beside it.
pub type Word<E> = Table<(), Knowledge<E>, (), LogRule, Global>;

/// The right to step on the word, with what its holder knows. It has no bytes.
pub type Token<E> = Seat<(), Knowledge<E>>;

/// A load by which the keeper appends the chosen entry.
pub struct Append<C> {
    entry: PhantomData<C>,
}

impl<E, C: Chosen<E>> Play<(), Knowledge<E>> for Append<C> {
    ghost use Rattle.fj_fronts.specs.Rule.{Grows};

    ghost then = { Grows C.chosen };
}

/// A front is split off, which knows the same.
pub struct Show;

impl<E> Split<Knowledge<E>> for Show {
    ghost use Rattle.fj_fronts.specs.Rule.{front_of};

    ghost left = { λ v. v };

    ghost right = { λ v. front_of v.known };
}

/// A seat takes over what a front knows.
pub struct Together;

impl<E> Join<Knowledge<E>> for Together {
    ghost use Rattle.fj_fronts.specs.Rule.{nothing, together};

    ghost both = { together };

    ghost spent = { nothing };
}

/// A load by which the keeper learns that what the other ends know begins the log.
pub struct Check;

impl<E> Play<(), Knowledge<E>> for Check {
    ghost use Rattle.fj_fronts.specs.Rule.{Checks};

    ghost then = { Checks };
}

/// A load by which a front learns that of two beginnings of the log one begins the other. It knows the longer from then on.
pub struct Compare;

impl<E> Play<(), Knowledge<E>> for Compare {
    ghost use Rattle.fj_fronts.specs.Rule.{Compares};

    ghost then = { Compares };
}
