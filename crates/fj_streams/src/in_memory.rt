ghost use Rattle.std.specs.Prelude.{◌≡◌, ◌+◌, ◌≤◌, ◌^◌, length, Some};

use crate::call_count::CallCount;
use crate::streams::Source;
use std::io::{self, Read};
use std::mem;

/// A reader of bytes in memory. Its reads do not fail, and at most as many as there are bytes come before the end.
#[derive(Drop)]
pub struct InMemory<'a> {
    rest: &'a [u8],
    again: CallCount,
    ghost few: { again + length rest.now ≤ 2 ^ 63 },
}

impl<'a> InMemory<'a> {
    /// A reader at the first of these bytes.
    pub fn new(bytes: &'a [u8]) -> InMemory<'a>
        ensures rest { result.rest.now ≡ bytes.now }
        ensures again { result.again ≡ 0 }
    {
        InMemory {
            rest: bytes,
            again: CallCount::new(),
        }
    }
}

impl Source for InMemory<'_> {
    ghost remaining = { λ r. Some r.rest.now };

    ghost calls = { λ r. Some (record { failed = 0; again = r.again }) };

    fn pull(&mut self, buf: &mut [u8]) -> io::Result<usize> {
        let mut rest = self.rest;
        let n = rest.read(buf)?;
        let mut again = mem::replace(&mut self.again, CallCount::new());
        if n > 0 {
            again.add_one();
        }
        *self = InMemory { rest, again };
        Ok(n)
    }
}
