ghost use Rattle.std.specs.Prelude.{◌≡◌, ℕ, Some, OnOk, IfErr, IfOk, true};
ghost use Rattle.fj_rules.specs.Pasts.{Past};
ghost use Rattle.fj_history.specs.declared.read.TheConstants.{MAX_ENTRY};
ghost use Rattle.fj_check.specs.declared.history_check.HistoryCheck.TheVariants as check;
ghost use Rattle.fj_check.specs.LongLines.{too_long};
ghost use Rattle.fj_check.specs.Rules.{IsEntryStop, IsHeadStop, after, check_rules, has_heading};

use crate::story::Story;
use fj_check::{HistoryStop, check_line, read_heading};
use fj_checker::Checker;
use fj_history::MAX_ENTRY;
use fj_streams::{LineFilter, LineStop, Sink};
use std::alloc::Global;
use std::marker::Model;
use std::mem;

/// Behind the heading of a history: what has happened so far, how many events that are, and their story.
#[derive(Drop)]
struct Seen {
    checker: Checker,
    events: u64,
    story: Story,
}

impl Seen {
    /// Handles a line behind the heading.
    fn go_on(&mut self, alloc: Global, line: &[u8]) -> Result<(), LineStop<HistoryStop>>
        requires { self.old.story ≡ self.old.checker }
        ensures next { OnOk result (after (check.Going self.old.checker self.old.events) line.now ≡ Some (check.Going self.new.checker self.new.events)) }
        ensures same { OnOk result (self.new.story ≡ self.new.checker) }
        ensures err { IfErr result (IsEntryStop self.old.checker line.now) }
    {
        match check_line(alloc, &mut self.checker, &mut self.events, line) {
            Ok(entry) => match self.story.tell(&entry, &self.checker) {
                Ok(()) => Ok(()),
                Err(_) => Err(LineStop::Memory),
            },
            Err(stop) => Err(stop),
        }
    }
}

/// The state of reading a history. Contracts see the state of its check. An error lets go of what was read.
#[derive(Drop)]
pub struct Looking {
    /// None before the heading.
    seen: Option<Seen>,
}

impl Model for Looking {
    ghost use Rattle.std.specs.Prelude.{◌≡◌, IfSome};
    ghost use Rattle.std.specs.Option.{option_map_or};
    ghost use Rattle.fj_check.specs.declared.history_check.HistoryCheck.{HistoryCheck};
    ghost use Rattle.fj_check.specs.declared.history_check.HistoryCheck.TheVariants.{Start, Going};

    ghost Value = { HistoryCheck };

    ghost view = { λ s. option_map_or (λ seen. Going seen.checker seen.events) s.seen Start };

    ghost invariant = { λ s. IfSome s.seen (λ seen. seen.story ≡ seen.checker) };
}

impl LineFilter for Looking {
    type Stop = HistoryStop;

    ghost rules = { check_rules };

    ghost too_long = { too_long };

    fn longest() -> usize {
        MAX_ENTRY
    }

    fn advance<W: Sink>(
        &mut self,
        alloc: Global,
        line: &[u8],
        w: &mut W,
    ) -> Result<(), LineStop<HistoryStop>> {
        // Nothing is written.
        let _ = w;
        let Some(mut seen) = self.seen.take() else {
            return self.begin(alloc, line);
        };
        match seen.go_on(alloc, line) {
            Ok(()) => {
                self.set(seen);
                Ok(())
            }
            Err(stop) => {
                // An explicit drop is proved faster.
                drop(seen);
                Err(stop)
            }
        }
    }

    fn has_heading(&self) -> bool {
        self.seen.is_some()
    }
}

impl Looking {
    /// Before the heading.
    pub fn new() -> Looking
        ensures { result ≡ check.Start }
    {
        Looking { seen: None }
    }

    /// Handles the heading.
    fn begin(&mut self, alloc: Global, line: &[u8]) -> Result<(), LineStop<HistoryStop>>
        ensures next { OnOk result (after check.Start line.now ≡ Some self.new) }
        ensures err { IfErr result (IsHeadStop line.now) }
    {
        let seen = opened(alloc, line)?;
        self.set(seen);
        Ok(())
    }

    /// Keeps what was seen. Precondition: its story is that of its events.
    fn set(&mut self, seen: Seen)
        requires { seen.story ≡ seen.checker }
        ensures { self.new ≡ check.Going seen.checker seen.events }
    {
        // By a call, which is cheaper to prove than the drop in an assignment.
        drop(mem::replace(self, Looking { seen: Some(seen) }));
    }

    /// The story, behind the heading.
    pub fn into_story(self) -> Story
        requires { has_heading self ≡ true }
        ensures { (past : Past) (n : ℕ) → self ≡ check.Going past n → result ≡ past }
    {
        match self.seen {
            Some(seen) => {
                let Seen { checker, story, .. } = seen;
                drop(checker);
                story
            }
            None => unreachable!(),
        }
    }
}

/// What is seen by the heading, before anything has happened.
fn opened(alloc: Global, heading: &[u8]) -> Result<Seen, LineStop<HistoryStop>>
    ensures next { IfOk result (λ seen. after check.Start heading.now ≡ Some (check.Going seen.checker seen.events)) }
    ensures same { IfOk result (λ seen. seen.story ≡ seen.checker) }
    ensures err { IfErr result (IsHeadStop heading.now) }
{
    let (mode, limits) = read_heading(heading)?;
    let Ok(checker) = Checker::new(alloc, mode, limits) else {
        return Err(LineStop::Memory);
    };
    match Story::new(alloc, mode, limits, &checker) {
        Ok(story) => Ok(Seen {
            checker,
            events: 0,
            story,
        }),
        Err(_) => {
            drop(checker);
            Err(LineStop::Memory)
        }
    }
}
