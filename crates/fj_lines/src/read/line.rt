ghost use Rattle.fj_lines.specs.Words.{words_behind, if_last, Reads};
ghost use Rattle.fj_lines.specs.Readings.{line_in, line_said, worker_said, task_said, word_said};

use crate::line::Line;
use crate::read::fault::LineFault;
use crate::read::task::TaskWord;
use crate::read::words::{first_word, no_more};
use crate::read::{accept, completer, end, query, release, settle, take};

/// Reads a line, without its line feed. `LineFault` where it is not one.
#[tactic(auto, unfolding(crate::specs::Readings::line_in))]
pub fn read_line<W: TaskWord>(line: &[u8]) -> Result<Line<W, W::Label>, LineFault>
    ensures { Reads (line_in W.reader line.now) result }
{
    let (verb, behind) = first_word(line);
    line_said(verb, behind)
}

/// Reads a line by its first word. The most frequent lines come first: one each of accept, take, end and release.
#[tactic(auto, unfolding(crate::specs::Readings::line_said))]
fn line_said<W: TaskWord>(verb: &[u8], behind: &[u8]) -> Result<Line<W, W::Label>, LineFault>
    ensures { Reads (line_said W.reader verb.now (words_behind behind.now)) result }
{
    if verb == b"submit".as_slice() {
        accept::submit(behind)
    } else if verb == b"poll".as_slice() {
        take::poll(behind)
    } else if verb == b"end".as_slice() {
        end::end(behind)
    } else if verb == b"release".as_slice() {
        release::release(behind)
    } else {
        worker_said(verb, behind)
    }
}

/// The other lines of a worker, and all below. Not inlined, so that `line_said` stays small.
#[tactic(auto, unfolding(crate::specs::Readings::worker_said))]
#[inline(never)]
fn worker_said<W: TaskWord>(verb: &[u8], behind: &[u8]) -> Result<Line<W, W::Label>, LineFault>
    ensures { Reads (worker_said W.reader verb.now (words_behind behind.now)) result }
{
    if verb == b"fork".as_slice() {
        accept::fork(behind)
    } else if verb == b"trigger".as_slice() {
        accept::trigger(behind)
    } else if verb == b"help".as_slice() {
        take::help(behind)
    } else if verb == b"join".as_slice() {
        take::join(behind)
    } else if verb == b"hook".as_slice() {
        end::hook(behind)
    } else if verb == b"add".as_slice() {
        completer::add(behind)
    } else {
        task_said(verb, behind)
    }
}

/// The other lines that name a task, and all below.
#[tactic(auto, unfolding(crate::specs::Readings::task_said))]
fn task_said<W: TaskWord>(verb: &[u8], behind: &[u8]) -> Result<Line<W, W::Label>, LineFault>
    ensures { Reads (task_said W.reader verb.now (words_behind behind.now)) result }
{
    if verb == b"root".as_slice() {
        completer::root(behind)
    } else if verb == b"fault".as_slice() {
        settle::fault(behind)
    } else if verb == b"cancel".as_slice() {
        settle::cancel(behind)
    } else if verb == b"state".as_slice() {
        query::state(behind)
    } else {
        word_said(verb, behind)
    }
}

/// The lines of one word: of shut and epoch, and `quiet`.
#[tactic(auto, unfolding(crate::specs::Readings::word_said))]
fn word_said<T: Drop, N: Drop>(verb: &[u8], behind: &[u8]) -> Result<Line<T, N>, LineFault>
    ensures { Reads (word_said verb.now (words_behind behind.now)) result }
{
    if verb == b"shutdown".as_slice() {
        alone(behind, Line::Shutdown)
    } else if verb == b"stop".as_slice() {
        alone(behind, Line::Stop)
    } else if verb == b"quiet".as_slice() {
        alone(behind, Line::IsQuiescent)
    } else if verb == b"seal".as_slice() {
        alone(behind, Line::Seal)
    } else if verb == b"epoch".as_slice() {
        alone(behind, Line::Epoch)
    } else {
        Err(LineFault)
    }
}

/// `asked`, or `LineFault` where a word is left.
fn alone<A: Drop>(behind: &[u8], asked: A) -> Result<A, LineFault>
    ensures { Reads (if_last (words_behind behind.now) asked) result }
{
    no_more(behind)?;
    Ok(asked)
}
