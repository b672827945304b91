//! The gate's atomic word, the operations on it, and what each end knows of it.
//!
//! The word is twice the number of admissions, plus 1 once the gate is closed. Below, N is the closing number and a is the number
//! of entrants whose admission was refused. Each line is one atomic operation, and nothing else changes the word.
//!
//! | Operation | Word before | Word after | What the caller learns |
//! |---|---|---|---|
//! | admit, `fetch_add` of 2 | 2n | 2n + 2 | the gate was open, and n admissions came before: its ticket is n |
//! | | 2(N + a) + 1 | 2(N + a + 1) + 1 | the gate is closed; the distance of the word from 2N + 1 means nothing to it |
//! | close, `fetch_or` of 1 | 2n | 2n + 1 | it has closed the gate after n admissions: N is n |
//! | | 2(N + a) + 1 | the same | nothing new: N is not read off the word, which a has moved; the closer remembers it |
//! | look, one load | 2n | the same | the gate was open, and n were admitted |
//! | | 2(N + a) + 1 | the same | the gate is closed |
//!
//! The test and the addition are one operation, the linearization point. Were they two, a close between them would let a ticket be drawn
//! after N.
//!
//! An entrant that has seen Closed does not touch the word for an admission any more, so a is at most `MAX_SUBMITTERS`, and the word never
//! wraps.
use atomic_table::{Join, Play, Seat, Split, Table, TableRule};
use std::alloc::Global;
use std::collections::LinkedList;

/// What one end of the gate knows. It exists in proofs alone: no value of it is made.
pub struct View {
    /// The parts that it has, one for each entrant. All ends together have `MAX_SUBMITTERS`, so an end that has all knows what all know.
    pub parts: u64,
    /// The tickets that it drew.
    pub drawn: LinkedList<u64>,
    /// How often an admission returned Closed to it. The word counts these.
    pub told: u64,
    /// How often a query returned Closed to it.
    pub heard: u64,
    /// The greatest count of admissions that it has seen, its own tickets included.
    pub seen: u64,
    /// The closing number, at the end that closed the gate.
    pub closed: Option<u64>,
}

/// The invariant that ties the word to what all ends know.
pub struct GateRule;

impl TableRule<(), View, ()> for GateRule {
    ghost use Rattle.fj_rules.specs.declared.limits.TheConstants.{MAX_SUBMITTERS};
    ghost use Rattle.fj_gate.specs.Rule.{IsRuled};
    ghost use Rattle.fj_gate.specs.Steps.{fresh};

    ghost holds = { λ _. IsRuled };

    ghost first = { λ _. fresh MAX_SUBMITTERS };
}

/// The word. It needs no slots beside it.
pub type Word = Table<(), View, (), GateRule, Global>;

/// The right to step on the word, with what its holder knows. It has no bytes.
pub type Token = Seat<(), View>;

/// An admission.
pub struct Admit;

impl Play<(), View> for Admit {
    ghost use Rattle.fj_gate.specs.Steps.{Admits};

    ghost then = { Admits };
}

/// A query by an entrant.
pub struct EntrantLook;

impl Play<(), View> for EntrantLook {
    ghost use Rattle.fj_gate.specs.Steps.{Looks};

    ghost then = { Looks };
}

/// A query by the closer, which knows whether it has closed the gate.
pub struct CloserLook;

impl Play<(), View> for CloserLook {
    ghost use Rattle.fj_gate.specs.Steps.{Watches};

    ghost then = { Watches };
}

/// A close.
pub struct Close;

impl Play<(), View> for Close {
    ghost use Rattle.fj_gate.specs.Steps.{Closes};

    ghost then = { Closes };
}

/// The last query, by the closer with every entrant's part.
pub struct LastLook;

impl Play<(), View> for LastLook {
    ghost use Rattle.fj_gate.specs.Steps.{Meets};

    ghost then = { Meets };
}

/// Splits an entrant's part off the closer's token, or joins it again. Each costs one load.
pub struct Part;

impl Split<View> for Part {
    ghost use Rattle.fj_gate.specs.Steps.{fresh, less_one};

    ghost left = { less_one };

    ghost right = { λ _. fresh 1 };
}

impl Join<View> for Part {
    ghost use Rattle.fj_gate.specs.Steps.{fresh, together};

    ghost both = { together };

    ghost spent = { fresh 0 };
}
