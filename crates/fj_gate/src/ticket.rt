use std::marker::Model;

/// The number of an admission: 0, 1, 2, .. in the order of the `fetch_add`s, over all entrants of a gate.
///
/// It is below the number of submitters times `each`, so below 2,097,152. Java has no counterpart.
#[derive(Clone, Copy, Debug, PartialEq)]
pub struct Ticket(pub u64);

impl Model for Ticket {
    ghost use Rattle.std.specs.Prelude.{ℕ};

    ghost Value = { ℕ };

    ghost view = { λ t. t.0 };

    ghost inverse = { λ n. record { 0 = n } };
}

/// The gate is closed, permanently. To a submitter this is refusal 1, `Closed` of `fj_rules::Refusal`.
#[derive(Clone, Copy, Debug, PartialEq)]
pub struct Closed;
