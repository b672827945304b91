use std::fmt::{self, Display, Formatter, Write};
use thiserror::Error;

/// Why a line may not stand where it does.
#[derive(Clone, Copy, Debug, PartialEq, Error)]
pub enum Flaw {
    /// The input ends before the heading.
    Missing,
    NoLineFeed,
    TooLong,
    Empty,
    ByteOrderMark,
    CarriageReturn,
    Comment,
    Reply,
    SpaceBefore,
    SpaceBehind,
    Tab,
    TwoSpaces,
    Capital,
    NoHeading,
    SecondHeading,
    SecondTitle,
    OfVersion2,
    NoStep,
    LeadingZero,
    LargeNumber,
    NameForNumber,
    NumberForName,
    /// Too many words, too few, or one that is none of this step.
    Words,
}

impl Display for Flaw {
    fn fmt<W: Write>(&self, f: &mut Formatter<W>) -> fmt::Result {
        f.write_str(self.text())
    }
}

impl Flaw {
    /// What is wrong, in words.
    fn text(self) -> &'static str {
        match self {
            Flaw::Missing => "the heading is missing",
            Flaw::NoLineFeed => "no line feed at the end",
            Flaw::TooLong => "more than 66 bytes",
            Flaw::Empty => "an empty line",
            Flaw::ByteOrderMark => "a byte order mark",
            Flaw::CarriageReturn => "a carriage return at the end",
            Flaw::Comment => "a comment",
            Flaw::Reply => "a reply behind the step",
            Flaw::SpaceBefore => "a space at the beginning",
            Flaw::SpaceBehind => "a space at the end",
            Flaw::Tab => "a tab",
            Flaw::TwoSpaces => "two spaces",
            Flaw::Capital => "a capital letter",
            Flaw::NoHeading => "no heading, which is async or joining and four numbers",
            Flaw::SecondHeading => "a second heading",
            Flaw::SecondTitle => "fj 2 stands in the first line alone",
            Flaw::OfVersion2 => "a line of version 2, and fj 2 is not the first line",
            Flaw::NoStep => "no step has this name",
            Flaw::LeadingZero => "a leading zero",
            Flaw::LargeNumber => "a number above 4294967295",
            Flaw::NameForNumber => "a name where version 1 has a number",
            Flaw::NumberForName => "a number where version 2 has a name",
            Flaw::Words => "no words of this step",
        }
    }
}

/// The names of all steps.
const STEPS: [&str; 17] = [
    "submit", "fork", "trigger", "poll", "help", "join", "end", "hook", "add", "root", "fault",
    "cancel", "shutdown", "stop", "quiet", "state", "release",
];

/// The words of steps that are neither numbers nor names.
const WORDS: [&str; 9] = [
    "-", "relay", "stop", "ok", "quiet", "try", "pass", "complete", "fail",
];

/// What is wrong in the form of a line, without its line feed, whatever it asks for.
fn in_form(line: &str) -> Option<Flaw> {
    let found = if line.is_empty() {
        Flaw::Empty
    } else if line.starts_with('\u{FEFF}') {
        Flaw::ByteOrderMark
    } else if line.ends_with('\r') {
        Flaw::CarriageReturn
    } else if line.contains('#') {
        Flaw::Comment
    } else if line.contains('>') {
        Flaw::Reply
    } else if line.starts_with(' ') {
        Flaw::SpaceBefore
    } else if line.ends_with(' ') {
        Flaw::SpaceBehind
    } else if line.contains('\t') {
        Flaw::Tab
    } else if line.contains("  ") {
        Flaw::TwoSpaces
    } else if line.bytes().any(|byte| byte.is_ascii_uppercase()) {
        Flaw::Capital
    } else {
        return in_numbers(line);
    };
    Some(found)
}

/// A word that looks like a number and is none.
fn in_numbers(line: &str) -> Option<Flaw> {
    for word in line.split(' ') {
        if word.bytes().all(|byte| byte.is_ascii_digit()) {
            if word.len() > 1 && word.starts_with('0') {
                return Some(Flaw::LeadingZero);
            }
            if word.parse::<u32>().is_err() {
                return Some(Flaw::LargeNumber);
            }
        }
    }
    None
}

/// Why a line, without its line feed, is no heading.
pub fn of_heading(line: &str) -> Flaw {
    in_form(line).unwrap_or(Flaw::NoHeading)
}

/// Why a line behind the heading, without its line feed, is no step. With names it is one of version 2.
pub fn of_step(line: &str, has_names: bool) -> Flaw {
    if let Some(found) = in_form(line) {
        return found;
    }
    let verb = line.split(' ').next().unwrap_or("");
    match verb {
        "async" | "joining" => Flaw::SecondHeading,
        "fj" => Flaw::SecondTitle,
        "seal" | "epoch" if !has_names => Flaw::OfVersion2,
        _ if !STEPS.contains(&verb) => Flaw::NoStep,
        _ => in_words(line, has_names),
    }
}

/// What is wrong in the words of a step.
fn in_words(line: &str, has_names: bool) -> Flaw {
    let has_name = line.split(' ').skip(1).any(is_name);
    match (has_names, has_name) {
        (false, true) => Flaw::NameForNumber,
        (true, false) => Flaw::NumberForName,
        _ => Flaw::Words,
    }
}

/// Whether a word may be the name of a task, and is no word of a step.
fn is_name(word: &str) -> bool {
    word.starts_with(|c: char| c.is_ascii_lowercase()) && !WORDS.contains(&word)
}
