ghost use Rattle.std.specs.Prelude.{◌≡◌, [], OnOk, OnErr, IfOk, IfErr};
ghost use Rattle.std.specs.Io.KnownBytes.{Appends};
ghost use Rattle.fj_streams.specs.Calls.{IsFine};
ghost use Rattle.fj_streams.specs.Beginnings.{AppendsSome};
ghost use Rattle.fj_replay.specs.Stops.{IsCutOff};
ghost use Rattle.fj_replay.specs.TaskNames.{titled_head};
ghost use Rattle.fj_streams.specs.Tells.{WriterTells};
ghost use Rattle.fj_replay.specs.Plays.{is_title};

use crate::script_stop::ScriptStop;
use fj_lines::LINE_FEED;
use fj_streams::{LineStop, Sink, write_all};
use std::alloc::{AllocError, Global};

/// Whether a first line says that its script is of version 2.
pub fn is_title(line: &[u8]) -> bool
    ensures { result ≡ is_title line.now }
{
    line == b"fj 2".as_slice()
}

/// Writes the first two lines of a script of version 2: `fj 2` and this heading. At `Memory` nothing was written, at `Write` only a part of
/// them, or nothing.
pub fn write_head<W: Sink>(
    alloc: Global,
    heading: &[u8],
    w: &mut W,
) -> Result<(), LineStop<ScriptStop>>
    ensures written { OnOk result (Appends (W.contents w.old) (W.contents w.new) (titled_head heading.now)) }
    ensures err { IfErr result IsCutOff }
    ensures fine { OnOk result (IsFine (W.calls w.old) (W.calls w.new)) }
    ensures told { IfErr result (λ fault. WriterTells fault (W.calls w.old) (W.calls w.new)) }
    ensures some { OnErr result (AppendsSome (W.contents w.old) (W.contents w.new) (titled_head heading.now)) }
    ensures memory { result ≡ Err LineStop.Memory → Appends (W.contents w.old) (W.contents w.new) [] }
{
    match titled(alloc, heading) {
        Ok(head) => write_all(w, head.as_slice()),
        Err(_) => Err(LineStop::Memory),
    }
}

/// `fj 2` and the heading, each with a line feed.
#[tactic(auto, unfolding(crate::specs::TaskNames::titled_head))]
fn titled(alloc: Global, heading: &[u8]) -> Result<Vec<u8>, AllocError>
    ensures { IfOk result (λ head. head.items ≡ titled_head heading.now) }
{
    let mut head = Vec::new(alloc);
    head.extend_from_slice(b"fj 2\n")?;
    head.extend_from_slice(heading)?;
    head.push(LINE_FEED)?;
    Ok(head)
}
