ghost use Rattle.std.specs.Prelude.{◌≡◌, IfOk, IfErr, OnOk};
ghost use Rattle.fj_streams.specs.Tells.{seen};
ghost use Rattle.fj_streams.specs.Calls.{IsFine};
ghost use Rattle.fj_check.specs.Checks.{FailsToRead, IsReadAs, StopsCheck};

use crate::looking::Looking;
use crate::story::Story;
use fj_check::{CheckFault, check_fault};
use fj_streams::{Source, filter};
use std::alloc::Global;

/// Reads a history to its end and answers its story; the fault of a check where the input is none.
///
/// It fails as `check` does, at the same line. Memory for the story may be refused, too.
pub fn read_story<R: Source>(alloc: Global, r: &mut R) -> Result<Story, CheckFault>
    ensures ok { IfOk result (λ story. IsReadAs story (R.remaining r.old) (R.remaining r.new)) }
    ensures err { IfErr result (StopsCheck (R.remaining r.old) (R.remaining r.new)) }
    ensures fine { OnOk result (IsFine (R.calls r.old) (R.calls r.new)) }
    ensures failed { IfErr result (λ fault. fault ≡ CheckFault.Read → FailsToRead (seen R.remaining R.calls r.old r.new)) }
{
    let mut state = Looking::new();
    // Nothing is written to it.
    let mut nothing = Vec::new(alloc);
    let run = filter(alloc, &mut state, r, &mut nothing);
    drop(nothing);
    match run {
        Ok(()) => Ok(state.into_story()),
        Err(fault) => {
            drop(state);
            Err(check_fault(fault))
        }
    }
}
