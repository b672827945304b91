//! The trees of completers, for Graphviz.
use fj_rules::{How, Status};
use fj_story::{Story, TaskRow};
use std::fmt;

/// How the graph begins: how boxes and edges look.
const HEAD: &str = "digraph completers {
  graph [rankdir=TB, nodesep=0.2, ranksep=0.35];
  node [shape=box, style=\"rounded,filled\", fontname=\"Helvetica\", fontsize=10, color=\"#5b6675\"];
  edge [color=\"#8a94a3\", arrowsize=0.6];
";

/// Writes the completers as a graph in the language DOT, each below its parent: a box with its number, its pending count, and how it went. A
/// trigger is a diamond, and a double border stands for `stop`. An error where the writer fails.
pub fn write_dot<W: fmt::Write>(story: &Story, out: &mut W) -> fmt::Result {
    out.write_str(HEAD)?;
    for (n, row) in story.rows().iter().enumerate() {
        if row.kind.is_completer() {
            write_node(story, n as u64, row, out)?;
        }
    }
    out.write_str("}\n")
}

/// A completer, and the edge from its parent.
fn write_node<W: fmt::Write>(story: &Story, n: u64, row: &TaskRow, out: &mut W) -> fmt::Result {
    write!(out, "  t{n} [label=\"{n}")?;
    if let Some(label) = story.label_of(n) {
        write_quoted(label, out)?;
    }
    write_look(row, went(story, n, row), out)?;
    match row.kind.parent() {
        Some(p) => writeln!(out, "  t{} -> t{n};", p.0),
        None => Ok(()),
    }
}

/// The rest of its label, and its looks.
fn write_look<W: fmt::Write>(row: &TaskRow, went: &str, out: &mut W) -> fmt::Result {
    let pending = row.pending;
    let status = row.status;
    let fill = fill(row);
    let shape = if row.queue.is_none() {
        ", shape=diamond, style=filled"
    } else {
        ""
    };
    let border = if row.kind.relays() {
        ""
    } else {
        ", peripheries=2"
    };
    writeln!(
        out,
        "\\ncount {pending}, {went}\\n{status}\", fillcolor=\"{fill}\"{shape}{border}];"
    )
}

/// A text within quotes, behind a space.
fn write_quoted<W: fmt::Write>(text: &str, out: &mut W) -> fmt::Result {
    out.write_str(" ")?;
    for c in text.chars() {
        if c == '"' || c == '\\' {
            out.write_char('\\')?;
        }
        out.write_char(c)?;
    }
    Ok(())
}

/// Whether its action was handed out.
fn went(story: &Story, n: u64, row: &TaskRow) -> &'static str {
    if let Some(task) = story.task(n)
        && let Some(fired) = task.fired
    {
        return match fired.how {
            How::Zero => "fired",
            How::Complete => "complete",
        };
    }
    if row.at.passed.is_some() {
        "passed"
    } else {
        "not fired"
    }
}

/// Its colour.
fn fill(row: &TaskRow) -> &'static str {
    match &row.status {
        Status::Normal => "#d6efdc",
        Status::Exceptional(_) => "#f9d3d3",
        Status::Cancelled => "#e3e5e8",
        Status::Undone => {
            if row.at.fired.is_some() || row.at.passed.is_some() {
                "#e8eef7"
            } else {
                "#fff3d1"
            }
        }
    }
}
