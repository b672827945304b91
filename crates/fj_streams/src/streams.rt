//! Readers and writers whose contracts may count failed calls.
ghost use Rattle.std.specs.Prelude.{ℕ, Option, None, List, length};
ghost use Rattle.std.specs.Io.{ReadsAtMost, WritesAtMost};
ghost use Rattle.std.specs.Io.KnownBytes.{Keeps, ReadConsumes, WriteAppends};
ghost use Rattle.fj_streams.specs.Calls.{Calls, FlushCounts, ReadCounts, WriteCounts};

use std::io::{self, Read, Write};

/// A reader whose contracts may say whether a read failed. Each `Read` is one, with nothing known of its calls.
pub trait Source {
    // The bytes still to be read, where they are known.
    ghost remaining: { Self → Option (List ℕ) };

    // The reads so far, where they are known.
    ghost calls: { Self → Option Calls };

    /// Reads as `Read::read` does, with its errors.
    fn pull(&mut self, buf: &mut [u8]) -> io::Result<usize>
        ensures bound { ReadsAtMost result buf.new }
        ensures bytes { ReadConsumes (remaining self.old) (remaining self.new) result buf.new }
        ensures counts { ReadCounts (calls self.old) (calls self.new) result };
}

/// A writer whose contracts may say whether a write or a flush failed. Each `Write` is one, with nothing known of its calls.
pub trait Sink {
    // The bytes that the writer holds, where they are known.
    ghost contents: { Self → Option (List ℕ) };

    // The writes and flushes so far, where they are known.
    ghost calls: { Self → Option Calls };

    /// Writes as `Write::write` does, with its errors.
    fn push(&mut self, bytes: &[u8]) -> io::Result<usize>
        ensures bound { WritesAtMost result bytes.now }
        ensures bytes { WriteAppends (contents self.old) (contents self.new) result bytes.now }
        ensures counts { WriteCounts (calls self.old) (calls self.new) result (length bytes.now) };

    /// Flushes as `Write::flush` does, with its errors.
    fn flush_pushed(&mut self) -> io::Result<()>
        ensures bytes { Keeps (contents self.old) (contents self.new) }
        ensures counts { FlushCounts (calls self.old) (calls self.new) result };
}

impl<R: Read> Source for R {
    ghost remaining = { λ r. R.remaining r };

    ghost calls = { λ _. None };

    fn pull(&mut self, buf: &mut [u8]) -> io::Result<usize> {
        self.read(buf)
    }
}

impl<W: Write> Sink for W {
    ghost contents = { λ w. W.contents w };

    ghost calls = { λ _. None };

    fn push(&mut self, bytes: &[u8]) -> io::Result<usize> {
        self.write(bytes)
    }

    fn flush_pushed(&mut self) -> io::Result<()> {
        self.flush()
    }
}
