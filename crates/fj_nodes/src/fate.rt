ghost use Rattle.std.specs.Prelude.{◌≡◌};
ghost use Rattle.fj_nodes.specs.Fates.{was_called};

/// What became of a node.
#[derive(Clone, Copy, Debug, PartialEq)]
pub enum Fate {
    /// Its work was called, and is done.
    Done,
    /// Its work was called, and failed with this code.
    Failed(u32),
    /// Its work was not called: an input is not done, or the run was stopped.
    Skipped,
}

impl Fate {
    /// Whether the work was called.
    pub fn was_called(self) -> bool
        ensures { result ≡ was_called self }
    {
        match self {
            Fate::Done | Fate::Failed(_) => true,
            Fate::Skipped => false,
        }
    }
}
