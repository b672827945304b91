//! The answers to a script, by each of the calls that make its steps.
use crate::script::Line;
use crate::shown::{part, refused, shown};
use anyhow::Result;
use fj_lines::{Reply, read_head, read_step};
use fj_machine::{Machine, run_epochs};
use fj_replay::{replayed, upgraded};
use fj_rules::{Answer, InnerTypes, Limits, Mode, Move, OutOfMemory, Said, Sealed};
use std::alloc::{AllocError, Global};
use std::fmt::Write;

/// How the lines of a script are run: one by one on a machine, which also shows its state; in one list by `run_epochs`; as text by
/// `replayed`; or as text by `upgraded`, and its output by `replayed`.
#[derive(Clone, Copy, Debug)]
pub enum Way {
    Machine,
    RunEpochs,
    Replayed,
    Upgraded,
}

impl Way {
    /// Whether it answers such a line.
    pub fn takes(self, asked: &str) -> bool {
        match self {
            Way::Machine => true,
            Way::RunEpochs => move_of(asked).is_some(),
            Way::Replayed | Way::Upgraded => read_step(asked.as_bytes()).is_ok(),
        }
    }

    /// Whether it runs text.
    pub fn is_text(self) -> bool {
        matches!(self, Way::Replayed | Way::Upgraded)
    }

    /// The answers to the lines that it takes, a line each.
    pub fn answers(
        self,
        alloc: Global,
        mode: Mode,
        limits: Limits,
        head: &str,
        lines: &[Line<'_>],
    ) -> Result<String> {
        match self {
            Way::Machine => of_machine(alloc, mode, limits, lines),
            Way::RunEpochs => of_run_epochs(alloc, mode, limits, lines),
            Way::Replayed | Way::Upgraded => of_text(alloc, self, head, lines),
        }
    }
}

/// The mode and limits of a heading, if it is one.
pub fn heading(head: &str) -> Option<(Mode, Limits)> {
    let (mode, numbers) = read_head(head.as_bytes()).ok()?;
    let [workers, submitters, tasks, events] = numbers;
    let limits = Limits::new(workers, submitters, tasks, events).ok()?;
    Some((mode, limits))
}

/// The answers of a new machine. It has a single exit, since each exit has to prove the drop of the machine.
fn of_machine(alloc: Global, mode: Mode, limits: Limits, lines: &[Line<'_>]) -> Result<String> {
    let mut machine = Machine::new(alloc, mode, limits)?;
    Ok(asked_of(alloc, &mut machine, &limits, lines)?)
}

/// The answers of a borrowed machine.
fn asked_of(
    alloc: Global,
    machine: &mut Machine,
    limits: &Limits,
    lines: &[Line<'_>],
) -> Result<String, AllocError> {
    let mut text = String::new(alloc);
    for line in lines {
        answer(alloc, &mut text, machine, limits, line.asked)?;
        text.push('\n')?;
    }
    Ok(text)
}

/// The reply to a step or a seal, or what the machine shows.
fn answer(
    alloc: Global,
    text: &mut String,
    machine: &mut Machine,
    limits: &Limits,
    asked: &str,
) -> Result<(), AllocError> {
    match move_of(asked) {
        Some(Move::Step(step)) => reply(text, machine.step(&step), limits),
        Some(Move::Seal) => match machine.seal(alloc) {
            Ok(sealed) => part(text, &sealed),
            Err(refusal) => refused(text, refusal),
        },
        None => shown(alloc, text, machine, asked),
    }
}

fn reply(text: &mut String, said: Said, limits: &Limits) -> Result<(), AllocError> {
    write!(text, "{}", Reply::new(said, limits))
}

/// The move that a line asks for, if it is one.
fn move_of(asked: &str) -> Option<Move> {
    // For the proof: see `InnerTypes`.
    let _inside: Option<InnerTypes> = None;
    if asked == "seal" {
        return Some(Move::Seal);
    }
    match read_step(asked.as_bytes()) {
        Ok(step) => Some(Move::Step(step)),
        Err(_) => None,
    }
}

fn moves_in(alloc: Global, lines: &[Line<'_>]) -> Result<Vec<Move>, AllocError> {
    // For the proof: see `InnerTypes`.
    let _inside: Option<InnerTypes> = None;
    let mut moves = Vec::new(alloc);
    for line in lines {
        if let Some(asked) = move_of(line.asked) {
            moves.push(asked)?;
        }
    }
    Ok(moves)
}

/// The answers of `run_epochs`.
fn of_run_epochs(alloc: Global, mode: Mode, limits: Limits, lines: &[Line<'_>]) -> Result<String> {
    let moves = moves_in(alloc, lines)?;
    let (parts, answers) = without_machine(alloc, mode, limits, moves.as_slice())?;
    Ok(told(alloc, &limits, parts.as_slice(), answers.as_slice())?)
}

/// The result of `run_epochs` without the machine, which is dropped here.
fn without_machine(
    alloc: Global,
    mode: Mode,
    limits: Limits,
    moves: &[Move],
) -> Result<(Vec<Sealed>, Vec<Answer>), OutOfMemory> {
    // For the proof: see `InnerTypes`.
    let _inside: Option<InnerTypes> = None;
    let (_machine, parts, answers) = run_epochs(alloc, mode, limits, moves)?;
    Ok((parts, answers))
}

/// The lines of the answers. Each seal handed out the next part.
fn told(
    alloc: Global,
    limits: &Limits,
    parts: &[Sealed],
    answers: &[Answer],
) -> Result<String, AllocError> {
    let mut text = String::new(alloc);
    let mut parts = parts.iter();
    for answer in answers {
        let sealed = match answer {
            Answer::Sealed => parts.next(),
            _ => None,
        };
        line_of(&mut text, limits, answer, sealed)?;
        text.push('\n')?;
    }
    Ok(text)
}

/// The line of an answer, with the part that a seal handed out.
fn line_of(
    text: &mut String,
    limits: &Limits,
    answer: &Answer,
    sealed: Option<&Sealed>,
) -> Result<(), AllocError> {
    match (answer, sealed) {
        (Answer::Said(said), _) => reply(text, *said, limits),
        (Answer::Sealed, Some(sealed)) => part(text, sealed),
        (Answer::Sealed, None) => text.push_str("no part"),
        (Answer::Refused(refusal), _) => refused(text, *refusal),
    }
}

/// The answers of `replayed`, or of `upgraded` and `replayed`, to the steps among the lines.
fn of_text(alloc: Global, way: Way, head: &str, lines: &[Line<'_>]) -> Result<String> {
    let script = script_of(alloc, head, lines, false)?;
    if let Way::Replayed = way {
        Ok(of_replayed(alloc, script.as_bytes())?)
    } else {
        Ok(of_upgraded(alloc, script.as_bytes())?)
    }
}

/// The heading, and the lines: all, or those that are steps without names.
fn script_of(
    alloc: Global,
    head: &str,
    lines: &[Line<'_>],
    are_all: bool,
) -> Result<String, AllocError> {
    let mut text = String::new(alloc);
    push_line(&mut text, head)?;
    for line in lines {
        if are_all || read_step(line.asked.as_bytes()).is_ok() {
            push_line(&mut text, line.asked)?;
        }
    }
    Ok(text)
}

fn push_line(text: &mut String, line: &str) -> Result<(), AllocError> {
    text.push_str(line)?;
    text.push('\n')
}

fn of_replayed(alloc: Global, script: &[u8]) -> Result<String, AllocError> {
    match replayed(alloc, script) {
        Ok(replies) => String::from_utf8_lossy(alloc, replies.as_slice()),
        Err(fault) => format!(in alloc; "{fault}"),
    }
}

/// The replies to a script in which tasks have names: its lines are run as they are.
pub fn of_named(alloc: Global, title: &str, lines: &[Line<'_>]) -> Result<String, AllocError> {
    let script = script_of(alloc, title, lines, true)?;
    of_replayed(alloc, script.as_bytes())
}

/// The replies to a script as version 2, with each name tT turned back into T.
fn of_upgraded(alloc: Global, script: &[u8]) -> Result<String, AllocError> {
    match upgraded(alloc, script) {
        Ok(later) => unnamed(alloc, &of_replayed(alloc, later.as_slice())?),
        Err(_) => of_replayed(alloc, script),
    }
}

fn unnamed(alloc: Global, replies: &str) -> Result<String, AllocError> {
    let mut text = String::new(alloc);
    for reply in replies.lines() {
        match reply.split_once(" t") {
            Some((verb, number)) => writeln!(text, "{verb} {number}")?,
            None => push_line(&mut text, reply)?,
        }
    }
    Ok(text)
}
