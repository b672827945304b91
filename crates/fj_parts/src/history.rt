ghost use Rattle.std.specs.Prelude.{◌≡◌};
ghost use mathlib.Core.List.{IsPrefix};
ghost use Rattle.fj_fronts.specs.Logs.{IsLegal};
ghost use Rattle.fj_guarded.specs.Continuing.{ContinuesAll};

use fj_body::Body;
use fj_guarded::{Front, Keeper, Log, Naming};
use std::marker::Model;

/// The whole history of a pool that was wound up, in proofs alone: what any caller has seen begins it. It has no bytes but those of the log,
/// a word.
#[derive(Drop)]
pub struct History<B: Body, N: Naming> {
    pub(crate) keeper: Keeper<B, N>,
    pub(crate) log: Log<B, N>,
}

impl<B: Body, N: Naming> Model for History<B, N> {
    ghost use Rattle.std.specs.Prelude.{List};
    ghost use Rattle.fj_calls.specs.Cores.{CoreState};

    ghost Value = { List (CoreState B B.Key B.Out) };

    ghost view = { λ h. h.keeper };
}

impl<B: Body, N: Naming> History<B, N> {
    /// Proves that what a caller has seen begins it. It costs four loads.
    pub fn begins_with(&mut self, front: &mut Front<B, N>)
        ensures begins { IsPrefix front.old self.old }
        ensures same { self.new ≡ self.old }
        ensures stays { front.new ≡ front.old }
    {
        let mut seen = front.again(&self.log);
        seen.learn(&self.log, &mut self.keeper);
    }

    /// Proves that each moment continues all before it. It does nothing.
    pub fn legal(&self)
        ensures { IsLegal ContinuesAll self.now }
    {
        self.keeper.legal();
    }
}
