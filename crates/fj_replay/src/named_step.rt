//! The lines of steps in version 2.
ghost use Rattle.std.specs.Prelude.{◌≡◌, ◌+◌, ◌≤◌, ◌++◌, ◌∷◌, [], IsOk, OnOk, length, string_bytes, string_capacity, string_len, codes, decimal};
ghost use Rattle.fj_lines.specs.Words.{joined};
ghost use Rattle.fj_lines.specs.Lines.{ending_words, relay_word, submitted_words, named_kind_words, word_or_dash};
ghost use Rattle.fj_lines.specs.declared.read.TheConstants.{LINE_FEED};
ghost use Rattle.fj_replay.specs.TaskNames.{named_kind, named_line, task_name};

use crate::pushes::{push_number, push_numbers, push_task};
use fj_rules::{Ending, Kind, Serial, Step, SubId, SubmittedKind, WorkerId};
use std::alloc::AllocError;

/// Room in which each step has its line of version 2, with the line feed.
pub const STEP_ROOM: usize = 128;

/// Appends a step's line of version 2, with its line feed. `next` is the number of the task that it may accept. An error comes where the
/// text can't grow, never where it has [`STEP_ROOM`] left; then a part of the line may have been appended.
#[tactic(auto, unfolding(crate::specs::TaskNames::named_line))]
pub fn push_named(asked: &Step, next: u64, text: &mut String) -> Result<(), AllocError>
    ensures line { OnOk result (string_bytes text.new ≡ string_bytes text.old ++ named_line next asked.now) }
    ensures fits { string_len text.old + STEP_ROOM ≤ string_capacity text.old → IsOk result }
    ensures room { string_capacity text.old ≤ string_capacity text.new }
{
    match asked {
        Step::Submit { s, kind } => push_submit(*s, kind, next, text),
        Step::Fork { w, kind } => push_fork(*w, kind, next, text),
        Step::Trigger { w, count } => push_trigger(*w, *count, next, text),
        Step::Poll { w, r } => push_numbers(text, "poll", w.0.into(), (*r).into()),
        Step::Help { w, r } => push_numbers(text, "help", w.0.into(), (*r).into()),
        Step::Join { w, t, r } => push_worker(text, "join", *w, *t, *r),
        Step::End { w, ending } => push_end(*w, ending, text),
        Step::HookDone { w } => push_hook(*w, text),
        Step::Add { w, c, n } => push_worker(text, "add", *w, *c, *n),
        Step::QuietRoot { w, t } => push_root(*w, *t, text),
        Step::Fault { t, code } => push_fault(*t, *code, text),
        Step::Cancel { t } => push_one(text, "cancel", *t),
        Step::Shutdown => text.push_str("shutdown\n"),
        Step::Stop => text.push_str("stop\n"),
        Step::IsQuiescent => text.push_str("quiet\n"),
        Step::State { t } => push_one(text, "state", *t),
        Step::Release { t } => push_one(text, "release", *t),
    }
}

/// A word, the name of the task that may be accepted, and the submitter or worker.
fn push_accepted(text: &mut String, word: &str, next: u64, number: u32) -> Result<(), AllocError>
    ensures words { OnOk result (string_bytes text.new ≡ string_bytes text.old ++ (word.now ++ 32 ∷ (task_name next ++ 32 ∷ decimal number))) }
    ensures few { OnOk result (string_len text.new ≤ string_len text.old + length word.now + 43) }
    ensures fits { string_len text.old + length word.now + 43 ≤ string_capacity text.old → IsOk result }
    ensures room { string_capacity text.old ≤ string_capacity text.new }
{
    text.push_str(word)?;
    push_task(text, next)?;
    push_number(text, number.into())
}

/// `submit`, the task's name, the submitter, and of a completer its count and relay word.
fn push_submit(
    s: SubId,
    kind: &SubmittedKind,
    next: u64,
    text: &mut String,
) -> Result<(), AllocError>
    ensures line { OnOk result (string_bytes text.new ≡ string_bytes text.old ++ (joined (codes "submit" ∷ task_name next ∷ decimal s ∷ submitted_words kind.now) ++ LINE_FEED ∷ [])) }
    ensures fits { string_len text.old + STEP_ROOM ≤ string_capacity text.old → IsOk result }
    ensures room { string_capacity text.old ≤ string_capacity text.new }
{
    push_accepted(text, "submit", next, s.0)?;
    match kind {
        SubmittedKind::Plain => text.push('\n'),
        SubmittedKind::Completer { relay, count } => push_count(text, *count, *relay),
    }
}

/// `fork`, the task's name, the worker, and of a completer its parent, count and relay word.
fn push_fork(w: WorkerId, kind: &Kind, next: u64, text: &mut String) -> Result<(), AllocError>
    ensures line { OnOk result (string_bytes text.new ≡ string_bytes text.old ++ (joined (codes "fork" ∷ task_name next ∷ decimal w ∷ named_kind_words (named_kind kind.now)) ++ LINE_FEED ∷ [])) }
    ensures fits { string_len text.old + STEP_ROOM ≤ string_capacity text.old → IsOk result }
    ensures room { string_capacity text.old ≤ string_capacity text.new }
{
    push_accepted(text, "fork", next, w.0)?;
    match kind {
        Kind::Plain => text.push('\n'),
        Kind::Completer {
            relay,
            count,
            parent,
        } => {
            push_parent(text, *parent)?;
            push_count(text, *count, *relay)
        }
    }
}

/// A space, and the name of a parent, or `-` for none.
fn push_parent(text: &mut String, parent: Option<Serial>) -> Result<(), AllocError>
    ensures word { OnOk result (string_bytes text.new ≡ string_bytes text.old ++ (32 ∷ word_or_dash task_name parent)) }
    ensures few { OnOk result (string_len text.new ≤ string_len text.old + 22) }
    ensures fits { string_len text.old + 22 ≤ string_capacity text.old → IsOk result }
    ensures room { string_capacity text.old ≤ string_capacity text.new }
{
    match parent {
        None => text.push_str(" -"),
        Some(p) => push_task(text, p.0),
    }
}

/// `trigger`, the task's name, the worker and the count.
fn push_trigger(w: WorkerId, count: u32, next: u64, text: &mut String) -> Result<(), AllocError>
    ensures line { OnOk result (string_bytes text.new ≡ string_bytes text.old ++ (joined (codes "trigger" ∷ task_name next ∷ decimal w ∷ decimal count ∷ []) ++ LINE_FEED ∷ [])) }
    ensures fits { string_len text.old + STEP_ROOM ≤ string_capacity text.old → IsOk result }
    ensures room { string_capacity text.old ≤ string_capacity text.new }
{
    push_accepted(text, "trigger", next, w.0)?;
    push_number(text, count.into())?;
    text.push('\n')
}

/// What follows of a completer: a space, its count, its relay word, and the line feed.
fn push_count(text: &mut String, count: u32, relay: bool) -> Result<(), AllocError>
    ensures line { OnOk result (string_bytes text.new ≡ string_bytes text.old ++ (32 ∷ joined (decimal count ∷ relay_word relay ∷ []) ++ LINE_FEED ∷ [])) }
    ensures fits { string_len text.old + 28 ≤ string_capacity text.old → IsOk result }
    ensures room { string_capacity text.old ≤ string_capacity text.new }
{
    push_number(text, count.into())?;
    if relay {
        text.push_str(" relay\n")
    } else {
        text.push_str(" stop\n")
    }
}

/// `end`, the worker and the ending.
fn push_end(w: WorkerId, ending: &Ending, text: &mut String) -> Result<(), AllocError>
    ensures line { OnOk result (string_bytes text.new ≡ string_bytes text.old ++ (joined (codes "end" ∷ decimal w ∷ ending_words ending.now) ++ LINE_FEED ∷ [])) }
    ensures fits { string_len text.old + STEP_ROOM ≤ string_capacity text.old → IsOk result }
    ensures room { string_capacity text.old ≤ string_capacity text.new }
{
    text.push_str("end")?;
    push_number(text, w.0.into())?;
    match ending {
        Ending::Ok => text.push_str(" ok\n"),
        Ending::Quiet => text.push_str(" quiet\n"),
        Ending::Try => text.push_str(" try\n"),
        Ending::Pass => text.push_str(" pass\n"),
        Ending::Complete => text.push_str(" complete\n"),
        Ending::Fail(code) => {
            text.push_str(" fail")?;
            push_number(text, (*code).into())?;
            text.push('\n')
        }
    }
}

/// `hook` and the worker.
fn push_hook(w: WorkerId, text: &mut String) -> Result<(), AllocError>
    ensures line { OnOk result (string_bytes text.new ≡ string_bytes text.old ++ (joined (codes "hook" ∷ decimal w ∷ []) ++ LINE_FEED ∷ [])) }
    ensures fits { string_len text.old + STEP_ROOM ≤ string_capacity text.old → IsOk result }
    ensures room { string_capacity text.old ≤ string_capacity text.new }
{
    text.push_str("hook")?;
    push_number(text, w.0.into())?;
    text.push('\n')
}

/// A word, the worker and a task.
fn push_at(text: &mut String, word: &str, w: WorkerId, t: Serial) -> Result<(), AllocError>
    ensures words { OnOk result (string_bytes text.new ≡ string_bytes text.old ++ (word.now ++ 32 ∷ (decimal w ++ 32 ∷ task_name t))) }
    ensures few { OnOk result (string_len text.new ≤ string_len text.old + length word.now + 43) }
    ensures fits { string_len text.old + length word.now + 43 ≤ string_capacity text.old → IsOk result }
    ensures room { string_capacity text.old ≤ string_capacity text.new }
{
    text.push_str(word)?;
    push_number(text, w.0.into())?;
    push_task(text, t.0)
}

/// `join` or `add`, the worker, a task and a number.
fn push_worker(
    text: &mut String,
    word: &str,
    w: WorkerId,
    t: Serial,
    number: u32,
) -> Result<(), AllocError>
    ensures line { OnOk result (string_bytes text.new ≡ string_bytes text.old ++ (joined (word.now ∷ decimal w ∷ task_name t ∷ decimal number ∷ []) ++ LINE_FEED ∷ [])) }
    ensures fits { string_len text.old + length word.now + 65 ≤ string_capacity text.old → IsOk result }
    ensures room { string_capacity text.old ≤ string_capacity text.new }
{
    push_at(text, word, w, t)?;
    push_number(text, number.into())?;
    text.push('\n')
}

/// `root`, the worker and a task.
fn push_root(w: WorkerId, t: Serial, text: &mut String) -> Result<(), AllocError>
    ensures line { OnOk result (string_bytes text.new ≡ string_bytes text.old ++ (joined (codes "root" ∷ decimal w ∷ task_name t ∷ []) ++ LINE_FEED ∷ [])) }
    ensures fits { string_len text.old + STEP_ROOM ≤ string_capacity text.old → IsOk result }
    ensures room { string_capacity text.old ≤ string_capacity text.new }
{
    push_at(text, "root", w, t)?;
    text.push('\n')
}

/// `fault`, a task and the code.
fn push_fault(t: Serial, code: u32, text: &mut String) -> Result<(), AllocError>
    ensures line { OnOk result (string_bytes text.new ≡ string_bytes text.old ++ (joined (codes "fault" ∷ task_name t ∷ decimal code ∷ []) ++ LINE_FEED ∷ [])) }
    ensures fits { string_len text.old + STEP_ROOM ≤ string_capacity text.old → IsOk result }
    ensures room { string_capacity text.old ≤ string_capacity text.new }
{
    text.push_str("fault")?;
    push_task(text, t.0)?;
    push_number(text, code.into())?;
    text.push('\n')
}

/// A word and a task.
fn push_one(text: &mut String, word: &str, t: Serial) -> Result<(), AllocError>
    ensures line { OnOk result (string_bytes text.new ≡ string_bytes text.old ++ (joined (word.now ∷ task_name t ∷ []) ++ LINE_FEED ∷ [])) }
    ensures fits { string_len text.old + length word.now + 23 ≤ string_capacity text.old → IsOk result }
    ensures room { string_capacity text.old ≤ string_capacity text.new }
{
    text.push_str(word)?;
    push_task(text, t.0)?;
    text.push('\n')
}
