ghost use Rattle.std.specs.Prelude.{◌≡◌, ◌+◌, ◌-◌, ◌^◌, nat_le, ◌<◌, ◌≤◌, ◌++◌, [], length, true, Some, OnOk, IfOk, IfErr};
ghost use Rattle.std.specs.Io.KnownBytes.{Appends};
ghost use Rattle.fj_streams.specs.Calls.{IsFine};
ghost use Rattle.fj_streams.specs.Buffers.{nothing_kept, continued, after_line, GoesOnBy, IsTooLong, StopsAt, StopsInLine, EndsEarly, EndsInside, WriterFails, StarvesAt, StarvesInLine, StarvesInside};

use crate::fault::FilterFault;
use crate::line_filter::LineFilter;
use crate::streams::Sink;
use memchr::memchr;
use std::alloc::{AllocError, Global};
use std::marker::Model;

/// The byte that ends a line.
const LINE_FEED: u8 = b'\n';

/// The present line so far, and how many whole lines there were.
#[derive(Drop)]
pub struct LineBuffer {
    count: u64,
    line: Vec<u8>,
    longest: usize,
}

impl Model for LineBuffer {
    ghost use Rattle.std.specs.Prelude.{◌≤◌, vec_capacity, vec_len};
    ghost use Rattle.fj_streams.specs.Kept.{Kept};

    ghost Value = { Kept };

    ghost view = { λ s. record { count = s.count; line = s.line.items; longest = s.longest } };

    ghost invariant = { λ s. record {
      fits : s.longest ≤ vec_capacity s.line;
      within : vec_len s.line ≤ s.longest;
    } };
}

/// Handles a line with this number.
fn advance_at<F: LineFilter, W: Sink>(
    alloc: Global,
    state: &mut F,
    line: &[u8],
    number: u64,
    w: &mut W,
) -> Result<(), FilterFault<F::Stop>>
    ensures next { OnOk result (F.rules.after state.old line.now ≡ Some state.new) }
    ensures wrote { OnOk result (Appends (W.contents w.old) (W.contents w.new) (F.rules.text state.old line.now)) }
    ensures err { IfErr result (λ fault. StopsAt F.rules number state.old line.now fault (W.contents w.old) (W.contents w.new)) }
    ensures fine { OnOk result (IsFine (W.calls w.old) (W.calls w.new)) }
    ensures told { IfErr result (λ fault. WriterFails fault (W.calls w.old) (W.calls w.new)) }
    ensures memory { IfErr result (λ fault. StarvesAt F.needs_memory state.old line.now fault (W.contents w.old) (W.contents w.new)) }
{
    match state.advance(alloc, line, w) {
        Ok(()) => Ok(()),
        Err(fault) => Err(fault.at(number)),
    }
}

impl LineBuffer {
    /// A buffer that has read nothing, for lines of at most so many bytes.
    pub fn new(alloc: Global, longest: usize) -> Result<LineBuffer, AllocError>
        ensures { IfOk result (λ buffer. buffer ≡ nothing_kept longest) }
    {
        let line = Vec::with_capacity(alloc, longest)?;
        Ok(LineBuffer {
            count: 0,
            line,
            longest,
        })
    }

    /// Whether the lines of so many more bytes might overflow the count.
    pub fn is_full(&self, more: usize) -> bool
        ensures { result ≡ nat_le (2 ^ 64 - 1 - more) self.now.count }
    {
        self.count >= u64::MAX - more as u64
    }

    /// Whether so many more bytes fit into the line.
    fn has_room(&self, more: usize) -> bool
        ensures { result ≡ nat_le (length self.now.line + more) self.now.longest }
    {
        more <= self.longest - self.line.len()
    }

    /// Appends bytes to the line. Precondition: they fit.
    fn extend(&mut self, bytes: &[u8])
        requires { length self.old.line + length bytes.now ≤ self.old.longest }
        ensures { self.new ≡ continued self.old bytes.now }
    {
        match self.line.extend_from_slice(bytes) {
            Ok(()) => {}
            Err(_) => unreachable!(),
        }
    }

    /// Takes bytes within a line. `Line` as soon as it is too long.
    fn keep<S>(&mut self, bytes: &[u8]) -> Result<(), FilterFault<S>>
        requires { self.old.count + length bytes.now < 2 ^ 64 }
        ensures ok { OnOk result ((length self.old.line + length bytes.now ≤ self.old.longest) × (self.new ≡ continued self.old bytes.now)) }
        ensures err { IfErr result (IsTooLong self.old (length bytes.now)) }
    {
        if !self.has_room(bytes.len()) {
            return Err(FilterFault::Line(self.count + 1));
        }
        self.extend(bytes);
        Ok(())
    }

    /// Takes the last bytes of a line. A line that came whole is not copied.
    fn take_line<F: LineFilter, W: Sink>(
        &mut self,
        alloc: Global,
        state: &mut F,
        bytes: &[u8],
        w: &mut W,
    ) -> Result<(), FilterFault<F::Stop>>
        requires { self.old.count + length bytes.now + 1 < 2 ^ 64 }
        ensures room { OnOk result (length self.old.line + length bytes.now ≤ self.old.longest) }
        ensures next { OnOk result (F.rules.after state.old (self.old.line ++ bytes.now) ≡ Some state.new) }
        ensures kept { OnOk result (self.new ≡ after_line self.old) }
        ensures wrote { OnOk result (Appends (W.contents w.old) (W.contents w.new) (F.rules.text state.old (self.old.line ++ bytes.now))) }
        ensures err { IfErr result (λ fault. StopsInLine F.rules self.old state.old bytes.now fault (W.contents w.old) (W.contents w.new)) }
        ensures fine { OnOk result (IsFine (W.calls w.old) (W.calls w.new)) }
        ensures told { IfErr result (λ fault. WriterFails fault (W.calls w.old) (W.calls w.new)) }
        ensures memory { IfErr result (λ fault. StarvesInLine F.needs_memory self.old state.old bytes.now fault (W.contents w.old) (W.contents w.new)) }
    {
        if !self.has_room(bytes.len()) {
            return Err(FilterFault::Line(self.count + 1));
        }
        let number = self.count + 1;
        if self.line.is_empty() {
            advance_at(alloc, state, bytes, number, w)?;
        } else {
            self.extend(bytes);
            advance_at(alloc, state, self.line.as_slice(), number, w)?;
            self.line.clear();
        }
        self.count = number;
        Ok(())
    }

    /// Takes bytes, up to the first fault.
    pub fn take_all<F: LineFilter, W: Sink>(
        &mut self,
        alloc: Global,
        state: &mut F,
        bytes: &[u8],
        w: &mut W,
    ) -> Result<(), FilterFault<F::Stop>>
        requires { self.old.count + length bytes.now < 2 ^ 64 }
        ensures ok { OnOk result (GoesOnBy F.rules bytes.now self.old self.new state.old state.new (W.contents w.old) (W.contents w.new)) }
        ensures err { IfErr result (λ fault. EndsInside F.rules bytes.now self.old state.old fault (W.contents w.old) (W.contents w.new)) }
        ensures fine { OnOk result (IsFine (W.calls w.old) (W.calls w.new)) }
        ensures told { IfErr result (λ fault. WriterFails fault (W.calls w.old) (W.calls w.new)) }
        ensures memory { IfErr result (λ fault. StarvesInside F.rules F.needs_memory bytes.now self.old state.old fault (W.contents w.old) (W.contents w.new)) }
    {
        let mut rest = bytes;
        while let Some(end) = memchr(LINE_FEED, rest) {
            self.take_line(alloc, state, &rest[..end], w)?;
            rest = &rest[end + 1..];
        }
        self.keep(rest)
    }

    /// Ends the input. `Line` where it ends within a line, or before the heading.
    pub fn finish<F: LineFilter>(&self, state: &F) -> Result<(), FilterFault<F::Stop>>
        requires { self.now.count + 1 < 2 ^ 64 }
        ensures ok { OnOk result ((self.now.line ≡ []) × (F.rules.has_heading state.now ≡ true)) }
        ensures err { IfErr result (EndsEarly F.rules self.now state.now) }
    {
        if self.line.is_empty() && state.has_heading() {
            Ok(())
        } else {
            Err(FilterFault::Line(self.count + 1))
        }
    }
}
