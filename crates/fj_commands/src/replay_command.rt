ghost use Rattle.std.specs.Prelude.{◌≡◌};
ghost use Rattle.fj_streams.specs.Tells.{seen};
ghost use Rattle.fj_commands.specs.Failures.{FailsToCopy};
ghost use Rattle.fj_commands.specs.Statuses.{EndsReplay};

use crate::script_end::end_script;
use fj_replay::replay;
use fj_streams::{Sink, Source};
use std::alloc::Global;

/// Replays a script, and answers the exit status.
pub fn run_replay<R: Source, W: Sink, E: Sink>(
    alloc: Global,
    input: &mut R,
    out: &mut W,
    err: &mut E,
) -> u8
    ensures ends { EndsReplay result (R.remaining input.old) (R.remaining input.new) (W.contents out.old) (W.contents out.new) }
    ensures failed { result ≡ 5 → FailsToCopy (seen R.remaining R.calls input.old input.new) (W.calls out.old) (W.calls out.new) }
{
    let ended = replay(alloc, input, out);
    end_script(ended, out, err)
}
