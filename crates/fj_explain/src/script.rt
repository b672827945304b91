use crate::explainer::Explainer;
use crate::fault::ExplainFault;
use crate::flaw::{Flaw, of_heading, of_step};
use crate::heading::limit_flaw;
use fj_lines::MAX_LINE2;
use fj_replay::{Names, Player, ScriptStop, TaskNaming, is_title};
use fj_streams::LineStop;
use std::alloc::Global;
use std::fmt::Write;

/// Runs a script of either version, and writes each line with its reply, and below it why nothing was done: below each refusal, and the
/// replies `spent`, `early`, `skip`, `none` and `no`. What is written is a script for `fj test`, with the reasons as comments.
///
/// `Line` at the first line that may not stand where it does, and `Limits` where a limit is out of its range, each with the reason; what
/// is written then are the lines before it. `Memory` if out of memory, `Write` if the writer fails.
pub fn explain<W: Write>(alloc: Global, script: &str, w: &mut W) -> Result<(), ExplainFault> {
    let (first, others) = cut(script, 1)?;
    if !is_title(first.as_bytes()) {
        return explain_from(alloc, TaskNaming::Numbers, 1, first, others, w);
    }
    writeln!(w, "{first}")?;
    let (heading, steps) = cut(others, 2)?;
    let naming = TaskNaming::Names(Names::new(alloc));
    explain_from(alloc, naming, 2, heading, steps, w)
}

/// The first line of a text, without its line feed, and the lines behind it. The line has this number.
fn cut(text: &str, number: u64) -> Result<(&str, &str), ExplainFault> {
    match text.split_once('\n') {
        Some(parts) => Ok(parts),
        None if text.is_empty() => Err(ExplainFault::Line(number, Flaw::Missing)),
        None => Err(ExplainFault::Line(number, Flaw::NoLineFeed)),
    }
}

/// Runs a script from its heading on, the line of this number. The machine is let go at this place alone, since each proves its drop.
fn explain_from<W: Write>(
    alloc: Global,
    naming: TaskNaming,
    number: u64,
    heading: &str,
    steps: &str,
    w: &mut W,
) -> Result<(), ExplainFault> {
    let has_names = matches!(&naming, TaskNaming::Names(_));
    let mut explainer = open(alloc, naming, number, heading)?;
    let explained = explain_steps(alloc, &mut explainer, has_names, number, heading, steps, w);
    drop(explainer);
    explained
}

/// Writes the heading, and handles the steps behind it.
fn explain_steps<W: Write>(
    alloc: Global,
    explainer: &mut Explainer,
    has_names: bool,
    number: u64,
    heading: &str,
    steps: &str,
    w: &mut W,
) -> Result<(), ExplainFault> {
    writeln!(w, "{heading}")?;
    let mut number = number;
    for line in steps.split_inclusive('\n') {
        number = number.saturating_add(1);
        let Some(words) = line.strip_suffix('\n') else {
            return Err(ExplainFault::Line(number, Flaw::NoLineFeed));
        };
        let Some(asked) = explainer.read(words) else {
            return Err(ExplainFault::Line(number, flaw(words, has_names)));
        };
        explainer.explain(alloc, words, asked, w)?;
    }
    Ok(())
}

/// A machine by the heading.
fn open(
    alloc: Global,
    naming: TaskNaming,
    number: u64,
    heading: &str,
) -> Result<Explainer, ExplainFault> {
    match Player::open(alloc, heading.as_bytes(), naming) {
        Ok(player) => Ok(Explainer::new(alloc, player)),
        Err(LineStop::Stop(ScriptStop::Faulty)) => {
            Err(ExplainFault::Line(number, of_heading(heading)))
        }
        Err(LineStop::Stop(ScriptStop::Limits)) => Err(of_limits(number, heading)),
        Err(LineStop::Memory | LineStop::Write) => Err(ExplainFault::Memory),
    }
}

fn of_limits(number: u64, heading: &str) -> ExplainFault {
    match limit_flaw(heading) {
        Some(found) => ExplainFault::Limits(found),
        None => ExplainFault::Line(number, Flaw::NoHeading),
    }
}

fn flaw(line: &str, has_names: bool) -> Flaw {
    if line.len() > MAX_LINE2 {
        Flaw::TooLong
    } else {
        of_step(line, has_names)
    }
}
