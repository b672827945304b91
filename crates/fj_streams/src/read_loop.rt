//! The read loop of a filter.
ghost use Rattle.std.specs.Prelude.{◌≡◌, OnOk, IfErr, length};
ghost use Rattle.fj_streams.specs.declared.read_loop.TheConstants.{CHUNK};
ghost use Rattle.fj_streams.specs.Calls.{IsFine};
ghost use Rattle.fj_streams.specs.Buffers.{nothing_kept};
ghost use Rattle.fj_streams.specs.Faults.{Finishes};
ghost use Rattle.fj_streams.specs.Starving.{StarvesFrom};
ghost use Rattle.fj_streams.specs.Tells.{StopsFrom, seen};

use crate::fault::FilterFault;
use crate::line_buffer::LineBuffer;
use crate::line_filter::LineFilter;
use crate::streams::{Sink, Source};
use crate::writes::flush_whole;
use std::alloc::Global;
use std::io::ErrorKind;

/// How many bytes are read at once.
pub const CHUNK: usize = 8192;

/// Reads lines from this state on, up to the end of the input or the first fault, and writes what each gives. Flushes before each further
/// read. At `Ok` the state is the one after the last line.
pub fn filter<F: LineFilter, R: Source, W: Sink>(
    alloc: Global,
    state: &mut F,
    r: &mut R,
    w: &mut W,
) -> Result<(), FilterFault<F::Stop>>
    ensures ok { OnOk result (Finishes F.rules state.old state.new (R.remaining r.old) (R.remaining r.new) (W.contents w.old) (W.contents w.new)) }
    ensures fine { OnOk result (IsFine (R.calls r.old) (R.calls r.new) × IsFine (W.calls w.old) (W.calls w.new)) }
    ensures err { IfErr result (StopsFrom F.rules state.old (seen R.remaining R.calls r.old r.new) (seen W.contents W.calls w.old w.new)) }
    ensures memory { IfErr result (λ fault. StarvesFrom F.rules F.needs_memory state.old fault (R.remaining r.old) (R.remaining r.new) (W.contents w.old) (W.contents w.new)) }
{
    let Ok(mut buffer) = LineBuffer::new(alloc, F::longest()) else {
        return Err(FilterFault::Memory);
    };
    let mut chunk = [0u8; CHUNK];
    filter_in(alloc, &mut buffer, &mut chunk, state, r, w)
}

/// The same, with a buffer that has read nothing.
fn filter_in<F: LineFilter, R: Source, W: Sink>(
    alloc: Global,
    buffer: &mut LineBuffer,
    chunk: &mut [u8],
    state: &mut F,
    r: &mut R,
    w: &mut W,
) -> Result<(), FilterFault<F::Stop>>
    requires nothing { buffer.old ≡ nothing_kept F.rules.longest }
    requires room { length chunk.old ≡ CHUNK }
    ensures ok { OnOk result (Finishes F.rules state.old state.new (R.remaining r.old) (R.remaining r.new) (W.contents w.old) (W.contents w.new)) }
    ensures fine { OnOk result (IsFine (R.calls r.old) (R.calls r.new) × IsFine (W.calls w.old) (W.calls w.new)) }
    ensures err { IfErr result (StopsFrom F.rules state.old (seen R.remaining R.calls r.old r.new) (seen W.contents W.calls w.old w.new)) }
    ensures memory { IfErr result (λ fault. StarvesFrom F.rules F.needs_memory state.old fault (R.remaining r.old) (R.remaining r.new) (W.contents w.old) (W.contents w.new)) }
{
    for _reads in 0..u64::MAX {
        // The lines of a chunk are counted in 64 bits.
        if buffer.is_full(CHUNK) {
            return Err(FilterFault::Read);
        }
        match r.pull(chunk) {
            Ok(0) => return buffer.finish(&*state),
            Ok(n) => {
                buffer.take_all(alloc, state, &chunk[..n], w)?;
                // The texts are delivered before the next read may block.
                if flush_whole(w).is_err() {
                    return Err(FilterFault::Write);
                }
            }
            Err(e) => {
                if e.kind() != ErrorKind::Interrupted {
                    return Err(FilterFault::Read);
                }
            }
        }
    }
    Err(FilterFault::Read)
}
