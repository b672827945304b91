//! The lines of `accept`.
ghost use Rattle.fj_lines.specs.Words.{words_behind, Reads};
ghost use Rattle.fj_lines.specs.Readings.Accept.{submit_in, fork_in, trigger_in, submitted_said, forked_said, count_and_relay, parent_said, relay_said};

use crate::line::{ForkedKind, Line};
use crate::read::fault::LineFault;
use crate::read::numbers::two_numbers;
use crate::read::task::TaskWord;
use crate::read::words::{at_end, next_number, next_word, no_more};
use fj_rules::{SubId, SubmittedKind, WorkerId};

/// Reads what follows `submit`: the label, the submitter, and the kind.
#[tactic(auto, unfolding(crate::specs::Readings::Accept::submit_in))]
pub fn submit<W: TaskWord>(behind: &[u8]) -> Result<Line<W, W::Label>, LineFault>
    ensures { Reads (submit_in W.reader (words_behind behind.now)) result }
{
    let (name, behind) = W::read_label(behind)?;
    let (s, behind) = next_number(behind)?;
    let kind = submitted_kind(behind)?;
    Ok(Line::Submit {
        name,
        s: SubId(s),
        kind,
    })
}

/// Reads what follows `fork`: the label, the worker, and the kind.
#[tactic(auto, unfolding(crate::specs::Readings::Accept::fork_in))]
pub fn fork<W: TaskWord>(behind: &[u8]) -> Result<Line<W, W::Label>, LineFault>
    ensures { Reads (fork_in W.reader (words_behind behind.now)) result }
{
    let (name, behind) = W::read_label(behind)?;
    let (w, behind) = next_number(behind)?;
    let kind = forked_kind(behind)?;
    Ok(Line::Fork {
        name,
        w: WorkerId(w),
        kind,
    })
}

/// Reads what follows `trigger`: the label, the worker and the count.
#[tactic(auto, unfolding(crate::specs::Readings::Accept::trigger_in))]
pub fn trigger<W: TaskWord>(behind: &[u8]) -> Result<Line<W, W::Label>, LineFault>
    ensures { Reads (trigger_in W.reader (words_behind behind.now)) result }
{
    let (name, behind) = W::read_label(behind)?;
    let (w, count) = two_numbers(behind)?;
    Ok(Line::Trigger {
        name,
        w: WorkerId(w),
        count,
    })
}

/// Reads what follows the submitter: nothing, or a completer's count and relay word.
#[tactic(auto, unfolding(crate::specs::Readings::Accept::submitted_said))]
fn submitted_kind(behind: &[u8]) -> Result<SubmittedKind, LineFault>
    ensures { Reads (submitted_said (words_behind behind.now)) result }
{
    if at_end(behind) {
        return Ok(SubmittedKind::Plain);
    }
    let (count, relay) = count_and_relay(behind)?;
    Ok(SubmittedKind::Completer { relay, count })
}

/// Reads what follows the worker that forks: nothing, or a completer's parent or `-`, its count and relay word.
#[tactic(auto, unfolding(crate::specs::Readings::Accept::forked_said))]
fn forked_kind<W: TaskWord>(behind: &[u8]) -> Result<ForkedKind<W>, LineFault>
    ensures { Reads (forked_said W.reader.task_in (words_behind behind.now)) result }
{
    if at_end(behind) {
        return Ok(ForkedKind::Plain);
    }
    let (word, behind) = next_word(behind)?;
    let parent = parent(word)?;
    let (count, relay) = count_and_relay(behind)?;
    Ok(ForkedKind::Completer {
        relay,
        count,
        parent,
    })
}

/// Reads a completer's count and relay word up to the end of the line. `LineFault` where there is something else.
#[tactic(auto, unfolding(crate::specs::Readings::Accept::count_and_relay))]
pub fn count_and_relay(behind: &[u8]) -> Result<(u32, bool), LineFault>
    ensures { Reads (count_and_relay (words_behind behind.now)) result }
{
    let (count, behind) = next_number(behind)?;
    let (word, behind) = next_word(behind)?;
    let relay = relay(word)?;
    no_more(behind)?;
    Ok((count, relay))
}

/// A task, or `-` for none.
#[tactic(auto, unfolding(crate::specs::Readings::Accept::parent_said))]
fn parent<W: TaskWord>(word: &[u8]) -> Result<Option<W>, LineFault>
    ensures { Reads (parent_said W.reader.task_in word.now) result }
{
    if word == b"-".as_slice() {
        Ok(None)
    } else {
        let t = W::read(word)?;
        Ok(Some(t))
    }
}

fn relay(word: &[u8]) -> Result<bool, LineFault>
    ensures { Reads (relay_said word.now) result }
{
    if word == b"relay".as_slice() {
        Ok(true)
    } else if word == b"stop".as_slice() {
        Ok(false)
    } else {
        Err(LineFault)
    }
}
