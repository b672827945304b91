use crate::answers::{Way, heading, of_named};
use crate::script::{Line, Script, alternative, scripts};
use anyhow::Result;
use std::alloc::{AllocError, Global};
use std::fmt::Write;

/// How many scripts a text has, and a line for each with a mismatch.
#[derive(Drop)]
pub struct Report {
    pub scripts: usize,
    pub mismatches: String,
}

/// Runs each script of a text, once for each of its headings, in each way. A text without scripts is a mismatch too.
pub fn report_on(alloc: Global, file: &str, text: &str) -> Result<Report> {
    let all = scripts(alloc, text)?;
    let mut mismatches = String::new(alloc);
    report_all(alloc, file, all.as_slice(), &mut mismatches)?;
    Ok(Report {
        scripts: all.len(),
        mismatches,
    })
}

/// Writes a line for each script with a mismatch.
fn report_all(alloc: Global, file: &str, all: &[Script<'_>], text: &mut String) -> Result<()> {
    if all.is_empty() {
        writeln!(text, "{file}: no script")?;
    }
    for script in all {
        let mut found = String::new(alloc);
        first_mismatch(alloc, script, &mut found)?;
        if !found.is_empty() {
            writeln!(text, "{file}:{found}")?;
        }
    }
    Ok(())
}

/// Writes the place of the first answer of a script that differs, and the actual answer; nothing where there is none.
fn first_mismatch(alloc: Global, script: &Script<'_>, found: &mut String) -> Result<()> {
    if script.lines.is_empty() {
        return Ok(place(found, script.number, script.title, "no steps")?);
    }
    if script.headings == TITLE {
        return named_mismatch(alloc, script, found);
    }
    // Version 1 has no line for a seal.
    let is_sealed = script.lines.iter().any(|line| line.asked == "seal");
    for k in 0..script.headings.split(" or ").count() {
        for way in [Way::Machine, Way::RunEpochs, Way::Replayed, Way::Upgraded] {
            if found.is_empty() && !(is_sealed && way.is_text()) {
                mismatch(alloc, script, k, way, found)?;
            }
        }
    }
    Ok(())
}

/// Writes a place, with what is wrong there.
fn place(found: &mut String, number: u64, title: &str, what: &str) -> Result<(), AllocError> {
    write!(found, "{number}: {title}: {what}")
}

/// The same of one way, with one of the headings.
fn mismatch(
    alloc: Global,
    script: &Script<'_>,
    k: usize,
    way: Way,
    found: &mut String,
) -> Result<()> {
    let head = alternative(script.headings, k);
    let Some((mode, limits)) = heading(head) else {
        place(found, script.number, script.title, "no heading: ")?;
        return Ok(found.push_str(head)?);
    };
    let lines = script.lines.as_slice();
    let answers = way.answers(alloc, mode, limits, head, lines)?;
    if let Some(wrong) = first_wrong(lines, &answers, way, k) {
        tell(found, script.title, &wrong)?;
        write!(found, " ({way:?} at {head})")?;
    }
    Ok(())
}

/// A line with another answer than the expected one.
#[derive(Clone, Copy)]
struct Wrong<'a> {
    line: &'a Line<'a>,
    given: &'a str,
    expected: &'a str,
}

/// The first of the lines that this way takes whose answer differs from alternative `k`.
fn first_wrong<'a>(
    lines: &'a [Line<'a>],
    answers: &'a str,
    way: Way,
    k: usize,
) -> Option<Wrong<'a>> {
    let mut answers = answers.lines();
    for line in lines {
        if way.takes(line.asked) {
            let given = answers.next().unwrap_or("no answer");
            let expected = alternative(line.replies, k);
            if given != expected {
                return Some(Wrong {
                    line,
                    given,
                    expected,
                });
            }
        }
    }
    None
}

/// The first line of a script in which tasks have names. Its heading is the second.
const TITLE: &str = "fj 2";

/// The same of a script in which tasks have names.
fn named_mismatch(alloc: Global, script: &Script<'_>, found: &mut String) -> Result<()> {
    let lines = script.lines.as_slice();
    let answers = of_named(alloc, script.headings, lines)?;
    // The heading has no reply.
    if let Some(wrong) = first_wrong_named(lines.get(1..).unwrap_or(lines), &answers) {
        tell(found, script.title, &wrong)?;
        found.push_str(" (Replayed by name)")?;
    }
    Ok(())
}

/// The first of the lines whose answer differs from the only one that is expected.
fn first_wrong_named<'a>(lines: &'a [Line<'a>], answers: &'a str) -> Option<Wrong<'a>> {
    let mut answers = answers.lines();
    for line in lines {
        let given = answers.next().unwrap_or("no answer");
        let expected = line.replies;
        if given != expected {
            return Some(Wrong {
                line,
                given,
                expected,
            });
        }
    }
    None
}

fn tell(found: &mut String, title: &str, wrong: &Wrong<'_>) -> Result<(), AllocError> {
    place(found, wrong.line.number, title, wrong.line.asked)?;
    write!(found, " > {}, and not {}", wrong.given, wrong.expected)
}
