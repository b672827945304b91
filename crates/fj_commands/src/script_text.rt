//! The whole text of a script.
ghost use Rattle.std.specs.Prelude.{◌≡◌, ◌⊎◌, Err};
ghost use Rattle.fj_streams.specs.Calls.{HasFailed};

use crate::answer::told;
use fj_streams::{Sink, Source};
use std::alloc::Global;
use std::io::ErrorKind;

/// Why a script was not read.
#[derive(Clone, Copy)]
pub enum Unread {
    /// It is not UTF-8.
    Text,
    /// Out of memory.
    Memory,
    /// A read failed.
    Read,
}

/// Reads a script to the end of the input. An interrupted read is retried.
pub fn read_script<R: Source>(alloc: Global, r: &mut R) -> Result<String, Unread>
    ensures failed { result ≡ Err Unread.Read → HasFailed (R.calls r.old) (R.calls r.new) }
{
    let mut bytes = Vec::new(alloc);
    let mut chunk = [0u8; 4096];
    for _reads in 0..u64::MAX {
        match r.pull(&mut chunk) {
            Ok(0) => return text_of(bytes),
            Ok(n) => {
                if bytes.extend_from_slice(&chunk[..n]).is_err() {
                    return Err(Unread::Memory);
                }
            }
            Err(error) => {
                if error.kind() != ErrorKind::Interrupted {
                    return Err(Unread::Read);
                }
            }
        }
    }
    Err(Unread::Read)
}

/// The text that these bytes are.
fn text_of(bytes: Vec<u8>) -> Result<String, Unread>
    ensures { result ≡ Err Unread.Read → ⊥ }
{
    match String::from_utf8(bytes) {
        Ok(text) => Ok(text),
        Err(_) => Err(Unread::Text),
    }
}

/// Writes why a script was not read, and answers the exit status.
pub fn told_of_unread<E: Sink>(unread: Unread, err: &mut E) -> u8
    ensures fails { (result ≡ 3) ⊎ ((result ≡ 4) ⊎ (result ≡ 5)) }
    ensures failed { result ≡ 5 → unread ≡ Unread.Read }
{
    match unread {
        Unread::Text => told(err, "fault: the script is not UTF-8\n", 3),
        Unread::Memory => told(err, "out of memory\n", 4),
        Unread::Read => told(err, "read failed\n", 5),
    }
}
