ghost use Rattle.std.specs.Prelude.{◌≡◌, OnOk, OnErr};
ghost use Rattle.std.specs.Io.KnownBytes.{Appends};
ghost use Rattle.fj_streams.specs.Calls.{HasFailed, IsFine};
ghost use Rattle.fj_streams.specs.Beginnings.{AppendsSome};

use crate::fault::LineStop;
use crate::streams::Sink;
use crate::writes::write_whole;

/// Writes all bytes. At `Write` only a part of them, or nothing, was written.
pub fn write_all<S, W: Sink>(w: &mut W, bytes: &[u8]) -> Result<(), LineStop<S>>
    ensures written { OnOk result (Appends (W.contents w.old) (W.contents w.new) bytes.now) }
    ensures fine { OnOk result (IsFine (W.calls w.old) (W.calls w.new)) }
    ensures err { OnErr result (result ≡ Err LineStop.Write) }
    ensures told { OnErr result (HasFailed (W.calls w.old) (W.calls w.new)) }
    ensures some { OnErr result (AppendsSome (W.contents w.old) (W.contents w.new) bytes.now) }
{
    match write_whole(w, bytes) {
        Ok(()) => Ok(()),
        Err(_) => Err(LineStop::Write),
    }
}
