//! The path that decided the end of a history.
mod link;
mod walk;

use fj_story::Story;
use link::{Link, LinkKind, write_link};
use std::alloc::Global;
use std::fmt;

/// Writes the chain of waits and runs that ends with the last end of a body or an action, the first link first, and before it how many
/// events are spent running, waiting in a queue, and otherwise.
///
/// Each link begins where what it waited for last came about: a task waits for the body that forks it, or for the worker that takes it; an
/// action for the last arrival; the rest of a body for the bodies inside it. A history does not say that a body waited for a task of another
/// worker, so that is a part of its run. An error where the writer fails, or if out of memory.
pub fn write_path<W: fmt::Write>(alloc: Global, story: &Story, out: &mut W) -> fmt::Result {
    let links = walk::links(alloc, story)?;
    let written = write_links(story, links.as_slice(), out);
    drop(links);
    written
}

/// What the links come to, and then each.
fn write_links<W: fmt::Write>(story: &Story, links: &[Link], out: &mut W) -> fmt::Result {
    write_sums(links, out)?;
    for link in links.iter().rev() {
        write_link(story, link, out)?;
    }
    Ok(())
}

/// What the links come to.
fn write_sums<W: fmt::Write>(links: &[Link], out: &mut W) -> fmt::Result {
    let mut runs = 0u64;
    let mut waits = 0u64;
    let mut others = 0u64;
    for link in links.iter() {
        let events = link.to.since(link.from);
        match link.kind {
            LinkKind::Runs(_, _) => runs = runs.saturating_add(events),
            LinkKind::Waits(_) => waits = waits.saturating_add(events),
            LinkKind::Climbs(_) | LinkKind::Takes(_) => others = others.saturating_add(events),
        }
    }
    writeln!(
        out,
        "links {}\nruns {runs}\nwaits {waits}\nothers {others}",
        links.len()
    )
}
