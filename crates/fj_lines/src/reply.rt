ghost use Rattle.std.specs.Prelude.{◌≡◌, ◌≤◌, ◌∷◌, [], Some, IfSome, IfNone, length, decimal};
ghost use Rattle.std.specs.Fmt.{WritesOnOk};
ghost use Rattle.fj_lines.specs.Words.{joined};
ghost use Rattle.fj_rules.specs.Bounds.{Bounds};
ghost use Rattle.fj_lines.specs.Replies.{place_words, reply_words, words_of_state};
ghost use Rattle.fj_lines.specs.Shown.{shown_limits, shown_said};

use fj_rules::{Limits, Place, Said};
use std::fmt;

/// A reply as text: displayed as its line, without the line feed. A queue is printed by its number.
#[derive(Clone, Copy)]
pub struct Reply<'a> {
    pub(crate) said: Said,
    pub(crate) limits: &'a Limits,
}

impl<'a> Reply<'a> {
    /// The text of this reply. The limits determine the number of a queue.
    pub fn new(said: Said, limits: &'a Limits) -> Reply<'a>
        ensures said { shown_said result ≡ said }
        ensures limits { shown_limits result ≡ limits.now }
    {
        Reply { said, limits }
    }
}

impl fmt::Display for Reply<'_> {
    ghost output = { λ r. Some (joined (reply_words (shown_limits r) (shown_said r))) };

    fn fmt<W: fmt::Write>(&self, f: &mut fmt::Formatter<W>) -> fmt::Result {
        match parts(&self.said) {
            (word, Some(number)) => write!(f, "{word} {number}"),
            (word, None) => match self.said {
                Said::State(place, status) => {
                    write!(f, "{word} ")?;
                    write_place(f, self.limits, place)?;
                    write!(f, " {status}")
                }
                _ => f.write_str(word),
            },
        }
    }
}

/// The first word of a reply, and the number after it, if there is one.
pub(crate) fn parts(said: &Said) -> (&'static str, Option<u64>)
    ensures some { IfSome result.1 (λ n. (limits : Bounds) → reply_words limits said.now ≡ result.0.now ∷ decimal n ∷ []) }
    ensures none { IfNone result.1 ((limits : Bounds) → reply_words limits said.now ≡ result.0.now ∷ words_of_state limits said.now) }
    ensures short { length result.0.now ≤ 11 }
{
    match *said {
        Said::Task(t) => ("task", Some(t.0)),
        Said::None => ("none", None),
        Said::Run(t) => ("run", Some(t.0)),
        Said::Skip(t) => ("skip", Some(t.0)),
        Said::Done => ("done", None),
        Said::Counted(t) => ("counted", Some(t.0)),
        Said::Hook(t) => ("hook", Some(t.0)),
        Said::Spent(t) => ("spent", Some(t.0)),
        Said::Early(t) => ("early", Some(t.0)),
        Said::Root(t) => ("root", Some(t.0)),
        Said::Count(n) => ("count", Some(n.into())),
        Said::Yes => ("yes", None),
        Said::No => ("no", None),
        Said::Normal => ("normal", None),
        Said::Exceptional(code) => ("exceptional", Some(code.into())),
        Said::Cancelled => ("cancelled", None),
        Said::Refused(refusal) => ("refused", Some(refusal.number().into())),
        Said::State(_, _) => ("state", None),
    }
}

/// The words of a place.
fn write_place<W: fmt::Write>(
    f: &mut fmt::Formatter<W>,
    limits: &Limits,
    place: Place,
) -> fmt::Result
    ensures { WritesOnOk W.write_str_gives f.old result (joined (place_words limits.now place)) f.new }
{
    match place {
        Place::Queued(owner) => write!(f, "queued {}", limits.queue_number(owner)),
        Place::Held(w) => write!(f, "held {}", w.0),
        Place::Open => f.write_str("open"),
        Place::Gone => f.write_str("gone"),
    }
}
