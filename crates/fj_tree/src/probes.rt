ghost use Rattle.std.specs.Prelude.{◌≡◌, ◌+◌};

use std::marker::Model;
use std::snapshot::Snapshot;

/// How many probes were made: a ghost count, seen by contracts only.
///
/// Nothing is counted at run time, so nothing overflows.
#[derive(Drop)]
pub struct Probes {
    // the count before the last probe, of size zero
    before: Option<Snapshot<Probes>>,
}

impl Model for Probes {
    ghost use Rattle.std.specs.Prelude.{ℕ, option_map};
    ghost use Rattle.fj_tree.specs.Kept.{count_after};

    ghost Value = { ℕ };

    ghost view = { λ p. count_after (option_map (λ s. s.value) p.before) };

    // there was one probe fewer before the last one
    ghost size = { λ count. count };
}

impl Probes {
    /// No probe so far.
    pub fn new() -> Probes
        ensures { result ≡ 0 }
    {
        Probes { before: None }
    }

    /// Counts one more probe.
    pub(crate) fn add_one(&mut self)
        ensures { self.new ≡ self.old + 1 }
    {
        let before = Snapshot::of(&*self);
        self.before = Some(before);
    }
}
