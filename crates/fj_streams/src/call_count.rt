ghost use Rattle.std.specs.Prelude.{◌≡◌, ◌+◌};

use std::marker::Model;
use std::snapshot::Snapshot;

/// A ghost count, seen by contracts only. Nothing is counted at run time, so nothing overflows.
#[derive(Drop)]
pub struct CallCount {
    // the count before the last call, of size zero
    before: Option<Snapshot<CallCount>>,
}

impl Model for CallCount {
    ghost use Rattle.std.specs.Prelude.{ℕ, option_map};
    ghost use Rattle.fj_streams.specs.Calls.{count_after};

    ghost Value = { ℕ };

    ghost view = { λ t. count_after (option_map (λ s. s.value) t.before) };

    // it was one fewer before the last one
    ghost size = { λ count. count };
}

impl CallCount {
    /// No call so far.
    pub fn new() -> CallCount
        ensures { result ≡ 0 }
    {
        CallCount { before: None }
    }

    /// Counts one more.
    pub fn add_one(&mut self)
        ensures { self.new ≡ self.old + 1 }
    {
        let before = Snapshot::of(&*self);
        self.before = Some(before);
    }
}
