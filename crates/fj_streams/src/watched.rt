ghost use Rattle.std.specs.Prelude.{◌≡◌, Some, ◌+◌};
ghost use Rattle.fj_streams.specs.Calls.{ErrorCounts};

use crate::call_count::CallCount;
use crate::streams::{Sink, Source};
use std::io::{self, ErrorKind, Read, Write};

/// A reader or a writer with ghost counts of its calls: how many failed, and after how many the caller has to call again.
#[derive(Drop)]
pub struct Watched<T> {
    inner: T,
    failed: CallCount,
    again: CallCount,
}

impl<T> Watched<T> {
    /// No call so far.
    pub fn new(inner: T) -> Watched<T>
        ensures inner { result.inner ≡ inner }
        ensures failed { result.failed ≡ 0 }
        ensures again { result.again ≡ 0 }
    {
        Watched {
            inner,
            failed: CallCount::new(),
            again: CallCount::new(),
        }
    }
}

impl<T> Watched<T> {
    /// Counts a call that ended with this error.
    fn count(&mut self, e: &io::Error)
        ensures inner { self.new.inner ≡ self.old.inner }
        ensures counts { ErrorCounts (Some (record { failed = self.old.failed; again = self.old.again })) (Some (record { failed = self.new.failed; again = self.new.again })) e.now }
    {
        if e.kind() == ErrorKind::Interrupted {
            self.again.add_one();
        } else {
            self.failed.add_one();
        }
    }
}

impl<R: Read> Source for Watched<R> {
    ghost remaining = { λ r. R.remaining r.inner };

    ghost calls = { λ r. Some (record { failed = r.failed; again = r.again }) };

    fn pull(&mut self, buf: &mut [u8]) -> io::Result<usize> {
        match self.inner.read(buf) {
            Ok(0) => Ok(0),
            Ok(n) => {
                self.again.add_one();
                Ok(n)
            }
            Err(e) => {
                self.count(&e);
                Err(e)
            }
        }
    }
}

impl<W: Write> Sink for Watched<W> {
    ghost contents = { λ w. W.contents w.inner };

    ghost calls = { λ w. Some (record { failed = w.failed; again = w.again }) };

    fn push(&mut self, bytes: &[u8]) -> io::Result<usize> {
        match self.inner.write(bytes) {
            Ok(n) => {
                if n == 0 && !bytes.is_empty() {
                    self.failed.add_one();
                }
                Ok(n)
            }
            Err(e) => {
                self.count(&e);
                Err(e)
            }
        }
    }

    fn flush_pushed(&mut self) -> io::Result<()> {
        match self.inner.flush() {
            Ok(()) => Ok(()),
            Err(e) => {
                self.count(&e);
                Err(e)
            }
        }
    }
}
