use std::alloc::{AllocError, Global};

/// A line of a script: its number in the file, what is asked, and the expected reply.
#[derive(Clone, Copy)]
pub struct Line<'a> {
    pub number: u64,
    pub asked: &'a str,
    pub replies: &'a str,
}

/// A script: its title, its heading with the number of its line, and the lines below.
#[derive(Drop)]
pub struct Script<'a> {
    pub title: &'a str,
    pub number: u64,
    pub headings: &'a str,
    pub lines: Vec<Line<'a>>,
}

/// Alternative number `k` of those separated by ` or `; the last one where there are fewer.
pub fn alternative(all: &str, k: usize) -> &str {
    all.split(" or ")
        .take(k.saturating_add(1))
        .last()
        .unwrap_or(all)
}

/// The scripts of a text, in the form that the README of this crate describes.
pub fn scripts<'a>(alloc: Global, text: &'a str) -> Result<Vec<Script<'a>>, AllocError> {
    let mut scripts = Vec::new(alloc);
    let mut title = "";
    let mut goes_on = false;
    let mut number = 0u64;
    for line in text.lines() {
        number = number.saturating_add(1);
        let (words, comment) = line.split_once('#').unwrap_or((line, ""));
        let words = words.trim();
        if !words.is_empty() {
            add(alloc, &mut scripts, goes_on, title, number, words)?;
            goes_on = true;
        } else if line.is_empty() {
            goes_on = false;
        } else if !goes_on {
            title = comment.trim();
        }
    }
    Ok(scripts)
}

fn headed<'a>(alloc: Global, title: &'a str, number: u64, headings: &'a str) -> Script<'a> {
    Script {
        title,
        number,
        headings,
        lines: Vec::new(alloc),
    }
}

fn line_of<'a>(number: u64, words: &'a str) -> Line<'a> {
    let (asked, replies) = words.split_once(" > ").unwrap_or((words, ""));
    Line {
        number,
        asked: asked.trim(),
        replies: replies.trim(),
    }
}

/// Adds a line to the last script, if it goes on; else a new script with these headings.
fn add<'a>(
    alloc: Global,
    scripts: &mut Vec<Script<'a>>,
    goes_on: bool,
    title: &'a str,
    number: u64,
    words: &'a str,
) -> Result<(), AllocError> {
    if !goes_on {
        scripts.push(headed(alloc, title, number, words))?;
    } else if let Some(script) = scripts.last_mut() {
        script.lines.push(line_of(number, words))?;
    }
    Ok(())
}
