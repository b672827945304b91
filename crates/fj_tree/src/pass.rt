//! Where a climb without hooks ends.
ghost use Rattle.std.specs.Prelude.{◌≡◌};
ghost use Rattle.fj_tree.specs.Passes.{end_by};

use crate::arrive::Arrived;
use crate::handle::Handle;
use std::marker::Model;

/// What ends a climb without hooks.
#[derive(Clone, Copy, Debug, PartialEq)]
pub enum PassHow {
    /// A completer with a pending count above 0, which falls by one.
    Counted,
    /// A completer that was spent or done already.
    Spent,
    /// A completer that is queued or held.
    Early,
    /// Nothing: the root was passed too.
    Root,
}

/// Where a climb without hooks ends.
#[derive(Clone, Copy, PartialEq)]
pub struct PassEnd {
    /// How many completers are passed.
    pub passed: u64,
    /// The completer that ends the climb, or the root that was passed.
    pub at: Handle,
    /// What ends the climb there.
    pub how: PassHow,
}

// For the proof: without a model, a `Copy` struct with a field that has one can be passed on only once.
impl Model for PassEnd {
    ghost use Rattle.fj_tree.specs.Passes.{PassEnd as Ended};

    ghost Value = { Ended };

    ghost view = { λ e. record { passed = e.passed; at = e.at; how = e.how } };

    ghost inverse = { λ e. record { passed = e.passed; at = e.at; how = e.how } };
}

/// How an arrival ends a climb. None if the climb goes on.
pub fn end_by(arrived: Arrived) -> Option<PassHow>
    ensures { result ≡ end_by arrived }
{
    match arrived {
        Arrived::Counted => Some(PassHow::Counted),
        Arrived::Spent => Some(PassHow::Spent),
        Arrived::Early => Some(PassHow::Early),
        Arrived::Fire => None,
    }
}
