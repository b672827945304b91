//! The output of a command: its answer on standard output, or an error on standard error.
ghost use Rattle.std.specs.Prelude.{◌≡◌, ◌⊎◌, ℕ, List, IfErr, IfOk, OnOk, OnErr, string_bytes};
ghost use Rattle.std.specs.Io.KnownBytes.{Appends};
ghost use Rattle.fj_streams.specs.Beginnings.{AppendsSome};
ghost use Rattle.fj_streams.specs.Calls.{HasFailed};
ghost use Rattle.fj_commands.specs.Answers.{EndsJob};

use fj_streams::{Sink, flush_whole, write_whole};
use std::alloc::AllocError;
use std::fmt::{self, Display, Write};
use std::io;

/// Text written to a sink, piece by piece.
#[derive(Drop)]
struct TextTo<'a, E> {
    sink: &'a mut E,
}

impl<E: Sink> Write for TextTo<'_, E> {
    fn write_str(&mut self, text: &str) -> fmt::Result {
        match write_whole(self.sink, text.as_bytes()) {
            Ok(()) => Ok(()),
            Err(_) => Err(fmt::Error),
        }
    }
}

/// Writes a text to standard error, and answers the status. A failure of this write is ignored.
pub fn told<E: Sink>(err: &mut E, text: &str, status: u8) -> u8
    ensures { result ≡ status }
{
    let _ = write_whole(err, text.as_bytes());
    status
}

/// Writes a line to standard error, the head and the text of a value, and answers the status. A failure of this write is ignored.
pub fn told_line<E: Sink, D: Display + Drop>(err: &mut E, head: &str, text: D, status: u8) -> u8
    ensures { result ≡ status }
{
    let mut to = TextTo { sink: err };
    let _ = writeln!(to, "{head}{text}");
    status
}

/// Writes a line, and flushes it. On an error a part of it, or nothing, was written.
#[tactic(auto, using(fj_streams::proofs::Begun::all_some, fj_streams::proofs::Bytes::appends_keeps))]
pub fn written<W: Sink>(out: &mut W, line: &str) -> io::Result<()>
    ensures ok { OnOk result (Appends (W.contents out.old) (W.contents out.new) line.now) }
    ensures err { OnErr result (AppendsSome (W.contents out.old) (W.contents out.new) line.now) }
    ensures failed { OnErr result (HasFailed (W.calls out.old) (W.calls out.new)) }
{
    match write_whole(out, line.as_bytes()) {
        Ok(()) => flush_whole(out),
        Err(error) => Err(error),
    }
}

/// Writes the line of an answer: 0 where it was written and flushed, 4 where out of memory for the line, 5 where a write or the flush
/// failed.
pub fn answered<W: Sink, E: Sink>(line: Result<String, AllocError>, out: &mut W, err: &mut E) -> u8
    ensures job { (text : List ℕ) → IfOk line (λ s. string_bytes s ≡ text) → EndsJob result text (W.contents out.old) (W.contents out.new) }
    ensures memory { IfErr line (λ e. result ≡ 4) }
    ensures status { (result ≡ 0) ⊎ ((result ≡ 4) ⊎ (result ≡ 5)) }
    ensures silent { result ≡ 4 → W.contents out.new ≡ W.contents out.old }
    ensures failed { result ≡ 5 → HasFailed (W.calls out.old) (W.calls out.new) }
{
    let Ok(line) = line else {
        return told(err, "out of memory\n", 4);
    };
    match written(out, &line) {
        Ok(()) => 0,
        Err(_) => told(err, "write failed\n", 5),
    }
}

/// Writes the line of an objection: 1 where it was written and flushed, 4 where out of memory for it, 5 where a write or the flush failed.
pub fn objected<W: Sink, E: Sink>(line: Result<String, AllocError>, out: &mut W, err: &mut E) -> u8
    ensures status { (result ≡ 1) ⊎ ((result ≡ 4) ⊎ (result ≡ 5)) }
    ensures failed { result ≡ 5 → HasFailed (W.calls out.old) (W.calls out.new) }
{
    match answered(line, out, err) {
        0 => 1,
        4 => 4,
        _ => 5,
    }
}
