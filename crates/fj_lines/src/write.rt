//! The line of a reply.
ghost use Rattle.std.specs.Prelude.{◌≡◌, ◌+◌, ◌≤◌, ◌++◌, ◌∷◌, [], IsOk, OnOk, length, string_bytes, string_capacity, string_len, codes, decimal};
ghost use Rattle.fj_rules.specs.Statuses.{status_words};
ghost use Rattle.fj_lines.specs.declared.read.TheConstants.{LINE_FEED};
ghost use Rattle.fj_lines.specs.declared.read.words.TheConstants.{SPACE};
ghost use Rattle.fj_lines.specs.Lines.{reply_line};
ghost use Rattle.fj_lines.specs.Replies.{place_words};
ghost use Rattle.fj_lines.specs.Shown.{shown_limits, shown_said};
ghost use Rattle.fj_lines.specs.Words.{joined};

use crate::reply::{Reply, parts};
use fj_rules::{Limits, Place, Said, Status};
use itoa::Buffer;
use std::alloc::AllocError;

/// Room in which each reply has its line, with the line feed.
pub const REPLY_ROOM: usize = 72;

impl Reply<'_> {
    /// Appends its line, with the line feed.
    ///
    /// An error comes where the text can't grow, never where it has [`REPLY_ROOM`] left. Then a part of the line may have been appended.
    #[tactic(auto, unfolding(crate::specs::Lines::reply_line))]
    pub fn push_line(&self, text: &mut String) -> Result<(), AllocError>
        ensures line { OnOk result (string_bytes text.new ≡ string_bytes text.old ++ reply_line (shown_limits self.now) (shown_said self.now)) }
        ensures fits { string_len text.old + REPLY_ROOM ≤ string_capacity text.old → IsOk result }
        ensures room { string_capacity text.old ≤ string_capacity text.new }
    {
        match parts(&self.said) {
            (word, Some(number)) => push_number(text, word, number),
            (word, None) => match self.said {
                Said::State(place, status) => push_state(text, self.limits, place, status),
                _ => push_word(text, word),
            },
        }
    }
}

// Without a formatter, which would take as long as the step itself.

/// Appends a line of one word.
fn push_word(text: &mut String, word: &str) -> Result<(), AllocError>
    ensures line { OnOk result (string_bytes text.new ≡ string_bytes text.old ++ (word.now ++ LINE_FEED ∷ [])) }
    ensures fits { string_len text.old + length word.now + 1 ≤ string_capacity text.old → IsOk result }
    ensures room { string_capacity text.old ≤ string_capacity text.new }
{
    text.push_str(word)?;
    text.push('\n')
}

/// Appends a line of a word and a number.
fn push_number(text: &mut String, word: &str, number: u64) -> Result<(), AllocError>
    ensures line { OnOk result (string_bytes text.new ≡ string_bytes text.old ++ (word.now ++ SPACE ∷ (decimal number ++ LINE_FEED ∷ []))) }
    ensures fits { string_len text.old + length word.now + 22 ≤ string_capacity text.old → IsOk result }
    ensures room { string_capacity text.old ≤ string_capacity text.new }
{
    push_numbered(text, word, number)?;
    text.push('\n')
}

/// Appends a word and a number.
#[inline(always)]
fn push_numbered(text: &mut String, word: &str, number: u64) -> Result<(), AllocError>
    ensures words { OnOk result (string_bytes text.new ≡ string_bytes text.old ++ (word.now ++ SPACE ∷ decimal number)) }
    ensures few { OnOk result (string_len text.new ≤ string_len text.old + length word.now + 21) }
    ensures fits { string_len text.old + length word.now + 21 ≤ string_capacity text.old → IsOk result }
    ensures room { string_capacity text.old ≤ string_capacity text.new }
{
    text.push_str(word)?;
    text.push(' ')?;
    text.push_str(Buffer::new().format(number))
}

/// Appends the line of a state.
fn push_state(
    text: &mut String,
    limits: &Limits,
    place: Place,
    status: Status,
) -> Result<(), AllocError>
    ensures line { OnOk result (string_bytes text.new ≡ string_bytes text.old ++ (joined (codes "state" ∷ (place_words limits.now place ++ status_words status)) ++ LINE_FEED ∷ [])) }
    ensures fits { string_len text.old + REPLY_ROOM ≤ string_capacity text.old → IsOk result }
    ensures room { string_capacity text.old ≤ string_capacity text.new }
{
    text.push_str("state ")?;
    push_place(text, limits, place)?;
    text.push(' ')?;
    push_status(text, status)?;
    text.push('\n')
}

/// Appends the words of a place.
fn push_place(text: &mut String, limits: &Limits, place: Place) -> Result<(), AllocError>
    ensures words { OnOk result (string_bytes text.new ≡ string_bytes text.old ++ joined (place_words limits.now place)) }
    ensures few { OnOk result (string_len text.new ≤ string_len text.old + 27) }
    ensures fits { string_len text.old + 27 ≤ string_capacity text.old → IsOk result }
    ensures room { string_capacity text.old ≤ string_capacity text.new }
{
    match place {
        Place::Queued(owner) => push_numbered(text, "queued", limits.queue_number(owner) as u64),
        Place::Held(w) => push_numbered(text, "held", w.0.into()),
        Place::Open => text.push_str("open"),
        Place::Gone => text.push_str("gone"),
    }
}

/// Appends the words of a status.
fn push_status(text: &mut String, status: Status) -> Result<(), AllocError>
    ensures words { OnOk result (string_bytes text.new ≡ string_bytes text.old ++ joined (status_words status)) }
    ensures few { OnOk result (string_len text.new ≤ string_len text.old + 32) }
    ensures fits { string_len text.old + 32 ≤ string_capacity text.old → IsOk result }
    ensures room { string_capacity text.old ≤ string_capacity text.new }
{
    match status {
        Status::Undone => text.push_str("undone"),
        Status::Normal => text.push_str("normal"),
        Status::Exceptional(code) => push_numbered(text, "exceptional", code.into()),
        Status::Cancelled => text.push_str("cancelled"),
    }
}
