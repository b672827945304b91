//! The state of a machine, as the lines of a script query it.
use fj_machine::Machine;
use fj_rules::{Limits, Owner, Refusal, Sealed, Serial, SubId, SubmittedKind, WorkerId};
use std::alloc::{AllocError, Global};
use std::fmt::Write;

/// Writes the answer to a query: the lists of tasks, the oldest first; `hand W`, the completer whose action a worker has in hand; `parent T`,
/// a task's parent; `limits`; `submission S`, the refusal of a plain task of a submitter; `epoch`, the number of seals; `events N`, the
/// events of the present history but for the first N.
pub fn shown(
    alloc: Global,
    text: &mut String,
    machine: &Machine,
    asked: &str,
) -> Result<(), AllocError> {
    let (word, number) = asked.split_once(' ').unwrap_or((asked, "0"));
    let Ok(number) = number.parse::<u32>() else {
        return text.push_str("no step");
    };
    match word {
        "submitter" => queue(alloc, text, machine, Owner::Sub(SubId(number))),
        "worker" => queue(alloc, text, machine, Owner::Work(WorkerId(number))),
        "stack" => numbers(text, machine.stack(WorkerId(number))),
        "open" => numbers(text, machine.open()),
        "gone" => numbers(text, machine.gone()),
        "hand" => hand(text, machine, number),
        "parent" => maybe(text, machine.parent(Serial(u64::from(number)))),
        "limits" => limits(text, machine.limits()),
        "submission" => submission(text, machine, SubId(number)),
        "epoch" => write!(text, "{}", machine.epoch()),
        "events" => events(text, machine, number),
        _ => text.push_str("no step"),
    }
}

/// How many events a sealed part has, and its gone tasks.
pub fn part(text: &mut String, sealed: &Sealed) -> Result<(), AllocError> {
    write!(text, "sealed {} events, gone ", sealed.events.len())?;
    numbers(text, sealed.gone.as_slice())
}

/// The number of a refusal.
pub fn refused(text: &mut String, refusal: Refusal) -> Result<(), AllocError> {
    write!(text, "refused {}", refusal.number())
}

/// The completer whose action a worker has in hand; `no worker` for an unknown one.
fn hand(text: &mut String, machine: &Machine, worker: u32) -> Result<(), AllocError> {
    if worker < machine.limits().workers() {
        maybe(text, machine.hook(WorkerId(worker)))
    } else {
        text.push_str("no worker")
    }
}

/// A task's number, or `none`.
fn maybe(text: &mut String, task: Option<Serial>) -> Result<(), AllocError> {
    match task {
        Some(t) => write!(text, "{}", t.0),
        None => text.push_str("none"),
    }
}

fn limits(text: &mut String, limits: Limits) -> Result<(), AllocError> {
    write!(
        text,
        "{} {} {} {}",
        limits.workers(),
        limits.submitters(),
        limits.tasks(),
        limits.events()
    )
}

fn submission(text: &mut String, machine: &Machine, s: SubId) -> Result<(), AllocError> {
    match machine.submit_refusal(s, &SubmittedKind::Plain) {
        Some(refusal) => refused(text, refusal),
        None => text.push_str("accepted"),
    }
}

fn queue(
    alloc: Global,
    text: &mut String,
    machine: &Machine,
    owner: Owner,
) -> Result<(), AllocError> {
    let tasks: Vec<Serial> = machine.queue(owner).collect(alloc)?;
    numbers(text, tasks.as_slice())
}

/// The numbers of tasks, or `none`.
fn numbers(text: &mut String, tasks: &[Serial]) -> Result<(), AllocError> {
    for (k, task) in tasks.iter().enumerate() {
        write!(text, "{}{}", gap(k), task.0)?;
    }
    none(text, tasks.is_empty())
}

/// The events but for the first ones, printed by `{:?}`, or `none`.
fn events(text: &mut String, machine: &Machine, first: u32) -> Result<(), AllocError> {
    let events = machine.history().get(first as usize..).unwrap_or(&[]);
    for (k, event) in events.iter().enumerate() {
        write!(text, "{}{event:?}", gap(k))?;
    }
    none(text, events.is_empty())
}

/// What stands before item `k` of a list.
fn gap(k: usize) -> &'static str {
    if k > 0 { " " } else { "" }
}

/// What stands for a list that is empty.
fn none(text: &mut String, is_empty: bool) -> Result<(), AllocError> {
    text.push_str(if is_empty { "none" } else { "" })
}
