//! The numbers by which submitters, workers and tasks are named.
use std::marker::Model;

/// A submitter, by its number: `0..S` in a pool of `S` submitters.
#[derive(Clone, Copy, Debug, PartialEq)]
pub struct SubId(pub u32);

impl Model for SubId {
    ghost use Rattle.std.specs.Prelude.{ℕ};

    ghost Value = { ℕ };

    ghost view = { λ s. s.0 };

    ghost inverse = { λ n. record { 0 = n } };
}

/// A worker, by its number: `0..W` in a pool of `W` workers.
#[derive(Clone, Copy, Debug, PartialEq)]
pub struct WorkerId(pub u32);

impl Model for WorkerId {
    ghost use Rattle.std.specs.Prelude.{ℕ};

    ghost Value = { ℕ };

    ghost view = { λ w. w.0 };

    ghost inverse = { λ n. record { 0 = n } };
}

/// A task's number: 0, 1, 2, .. in order of acceptance, never reused.
#[derive(Clone, Copy, Debug, PartialEq)]
pub struct Serial(pub u64);

impl Model for Serial {
    ghost use Rattle.std.specs.Prelude.{ℕ};

    ghost Value = { ℕ };

    ghost view = { λ t. t.0 };

    ghost inverse = { λ n. record { 0 = n } };
}
