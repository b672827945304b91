//! Whole writes and flushes, retried where interrupted.
ghost use Rattle.std.specs.Prelude.{◌<◌, ◌≤◌, OnOk, OnErr, IfOk, length, take};
ghost use Rattle.std.specs.Io.KnownBytes.{Appends, Keeps, WriteAppends};
ghost use Rattle.fj_streams.specs.Calls.{HasFailed, IsFine};
ghost use Rattle.fj_streams.specs.Beginnings.{AppendsSome};

use crate::streams::Sink;
use std::io::{self, ErrorKind};

/// Writes some of the bytes, and retries where that was interrupted. A writer that takes nothing has failed. Precondition: there are bytes.
#[tactic(auto, using(crate::proofs::Bytes::keeps_self, crate::proofs::Bytes::keeps_twice))]
fn write_some<W: Sink>(w: &mut W, bytes: &[u8]) -> io::Result<usize>
    requires { 0 < length bytes.now }
    ensures count { IfOk result (λ n. (0 < n) × (n ≤ length bytes.now)) }
    ensures bytes { WriteAppends (W.contents w.old) (W.contents w.new) result bytes.now }
    ensures fine { OnOk result (IsFine (W.calls w.old) (W.calls w.new)) }
    ensures failed { OnErr result (HasFailed (W.calls w.old) (W.calls w.new)) }
{
    for _turn in 0..u64::MAX {
        match w.push(bytes) {
            Ok(0) => break,
            Ok(n) => return Ok(n),
            Err(e) => {
                if e.kind() != ErrorKind::Interrupted {
                    return Err(e);
                }
            }
        }
    }
    Err(io::Error::from(ErrorKind::WriteZero))
}

/// Writes all bytes: `Write::write_all`. On an error a prefix of them was written: the writer failed, or took nothing.
#[tactic(auto, using(crate::proofs::Bytes::appends_more))]
pub fn write_whole<W: Sink>(w: &mut W, bytes: &[u8]) -> io::Result<()>
    ensures ok { OnOk result (Appends (W.contents w.old) (W.contents w.new) bytes.now) }
    ensures err { OnErr result (AppendsSome (W.contents w.old) (W.contents w.new) bytes.now) }
    ensures fine { OnOk result (IsFine (W.calls w.old) (W.calls w.new)) }
    ensures failed { OnErr result (HasFailed (W.calls w.old) (W.calls w.new)) }
{
    let mut at = 0;
    while at < bytes.len() {
        at += write_some(w, &bytes[at..])?;
    }
    Ok(())
}

/// Flushes, and retries where that was interrupted: `Write::flush`. An error where the flush failed otherwise.
#[tactic(auto, using(crate::proofs::Bytes::keeps_self, crate::proofs::Bytes::keeps_twice))]
pub fn flush_whole<W: Sink>(w: &mut W) -> io::Result<()>
    ensures bytes { Keeps (W.contents w.old) (W.contents w.new) }
    ensures fine { OnOk result (IsFine (W.calls w.old) (W.calls w.new)) }
    ensures failed { OnErr result (HasFailed (W.calls w.old) (W.calls w.new)) }
{
    for _turn in 0..u64::MAX {
        match w.flush_pushed() {
            Ok(()) => return Ok(()),
            Err(e) => {
                if e.kind() != ErrorKind::Interrupted {
                    return Err(e);
                }
            }
        }
    }
    Err(io::Error::from(ErrorKind::Other))
}
