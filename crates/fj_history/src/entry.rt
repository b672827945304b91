ghost use Rattle.std.specs.Prelude.{Some, ◌≡◌, ◌∷◌, decimal, map};
ghost use Rattle.std.specs.Fmt.{WritesOnOk};
ghost use Rattle.std.specs.Option.{option_to_list};
ghost use Rattle.fj_lines.specs.Words.{joined};
ghost use Rattle.fj_history.specs.Entries.{entry_words, event_words, owner_word, owner_number, kind_words};

use fj_rules::{Event, How, Kind, Owner, Serial};
use std::fmt;

/// What a line of a history behind its heading says. It is displayed as that line, without the line feed.
#[derive(Clone, Copy, Debug)]
pub enum Entry {
    /// This event happened.
    Event(Event),
    /// The history was sealed here: a part of it ends.
    Seal,
}

impl fmt::Display for Entry {
    ghost output = { λ e. Some (joined (entry_words e)) };

    fn fmt<W: fmt::Write>(&self, f: &mut fmt::Formatter<W>) -> fmt::Result {
        match self {
            Entry::Event(event) => write_event(f, event),
            Entry::Seal => f.write_str("seal"),
        }
    }
}

/// The words of an event.
fn write_event<W: fmt::Write>(f: &mut fmt::Formatter<W>, event: &Event) -> fmt::Result
    ensures { WritesOnOk W.write_str_gives f.old result (joined (event_words event.now)) f.new }
{
    match event {
        Event::Acc(t, owner, kind) => {
            let (whose, number) = owner_parts(*owner);
            write!(f, "acc {} {whose} {number} ", t.0)?;
            write_kind(f, *kind)
        }
        Event::Make(t, kind) => {
            write!(f, "make {} ", t.0)?;
            write_kind(f, *kind)
        }
        Event::Out(t, w) => write_numbers(f, "out", *t, Some(w.0)),
        Event::Skip(t, w) => write_numbers(f, "skip", *t, Some(w.0)),
        Event::End(t, w) => write_numbers(f, "end", *t, Some(w.0)),
        Event::Add(c, n) => write_numbers(f, "add", *c, Some(*n)),
        Event::Dec(c) => write_numbers(f, "dec", *c, None),
        Event::Fire(c, How::Zero) => write!(f, "fire {} zero", c.0),
        Event::Fire(c, How::Complete) => write!(f, "fire {} complete", c.0),
        Event::Pass(c) => write_numbers(f, "pass", *c, None),
        Event::Hooked(c) => write_numbers(f, "hooked", *c, None),
        Event::Settle(t, status) => write!(f, "settle {} {status}", t.0),
        Event::Close => f.write_str("close"),
        Event::Stop => f.write_str("stop"),
        Event::Rel(t) => write_numbers(f, "rel", *t, None),
    }
}

/// The name of an event, its task, and a number behind it, if there is one.
fn write_numbers<W: fmt::Write>(
    f: &mut fmt::Formatter<W>,
    name: &str,
    task: Serial,
    number: Option<u32>,
) -> fmt::Result
    ensures { WritesOnOk W.write_str_gives f.old result (joined (name.now ∷ decimal task ∷ map decimal (option_to_list number))) f.new }
{
    match number {
        Some(number) => write!(f, "{name} {} {number}", task.0),
        None => write!(f, "{name} {}", task.0),
    }
}

/// The word of an owner, and its number.
fn owner_parts(owner: Owner) -> (&'static str, u32)
    ensures word { result.0.now ≡ owner_word owner }
    ensures number { result.1 ≡ owner_number owner }
{
    match owner {
        Owner::Sub(s) => ("sub", s.0),
        Owner::Work(w) => ("work", w.0),
    }
}

/// The words of a kind.
fn write_kind<W: fmt::Write>(f: &mut fmt::Formatter<W>, kind: Kind) -> fmt::Result
    ensures { WritesOnOk W.write_str_gives f.old result (joined (kind_words kind)) f.new }
{
    let Kind::Completer {
        relay,
        count,
        parent,
    } = kind
    else {
        return f.write_str("plain");
    };
    let relay = if relay { "relay" } else { "stop" };
    match parent {
        None => write!(f, "completer - {count} {relay}"),
        Some(p) => write!(f, "completer {} {count} {relay}", p.0),
    }
}
