//! What the numbers of a call ask for.
ghost use Rattle.std.specs.Prelude.{◌≡◌};
ghost use Rattle.fj_codes.specs.Asked.{ending_in, mode_in, parent_in};

use crate::codes::NO_TASK;
use fj_rules::{Ending, Mode, Serial};

/// The mode of a number: 0 is async, 1 joining. None for any other.
pub fn mode_of(mode: u32) -> Option<Mode>
    ensures { result ≡ mode_in mode }
{
    match mode {
        0 => Some(Mode::Async),
        1 => Some(Mode::Joining),
        _ => None,
    }
}

/// The ending of a number, 0 to 5 in the order of `Ending`. None for any other. Only `Fail` has the fault.
pub fn ending_of(ending: u32, fault: u32) -> Option<Ending>
    ensures { result ≡ ending_in ending fault }
{
    match ending {
        0 => Some(Ending::Ok),
        1 => Some(Ending::Quiet),
        2 => Some(Ending::Try),
        3 => Some(Ending::Pass),
        4 => Some(Ending::Complete),
        5 => Some(Ending::Fail(fault)),
        _ => None,
    }
}

/// The parent of a number. None for [`NO_TASK`].
pub fn parent_of(parent: u64) -> Option<Serial>
    ensures { result ≡ parent_in parent }
{
    if parent == NO_TASK {
        None
    } else {
        Some(Serial(parent))
    }
}
