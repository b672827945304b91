ghost use Rattle.std.specs.Prelude.{◌≡◌, is_some};
ghost use Rattle.fj_rules.specs.Epochs.{IsPast};
ghost use Rattle.fj_calls.specs.Closes.{is_finished};

use crate::calls::view::CoreView;
use fj_body::Body;
use fj_machine::Machine;

/// Reads the state of a core.
pub trait CoreQueries<B: Body>: CoreView<B> {
    /// The machine beneath: its history, and what that shows.
    fn machine(&self) -> &Machine
        ensures is { result.now ≡ (Self.state self.now).store.past }
        ensures run { IsPast (Self.state self.now).store.past };

    /// Whether the closing number is known.
    fn is_closing(&self) -> bool
        ensures { result ≡ is_some (Self.state self.now).closing.number };

    /// Whether the pool has terminated.
    fn is_terminated(&self) -> bool
        ensures { result ≡ is_finished (Self.state self.now) };
}
