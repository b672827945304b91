ghost use Rattle.std.specs.Prelude.{◌≡◌, ◌≤◌, ◌++◌, [], drop, length, Some, OnOk, OnErr, IfOk, IfErr, string_bytes};
ghost use Rattle.std.specs.Io.KnownBytes.{Appends};
ghost use Rattle.fj_lines.specs.Words.{Reads};
ghost use Rattle.fj_lines.specs.Headings.{pool_in, start};
ghost use Rattle.fj_streams.specs.Calls.{IsFine};
ghost use Rattle.fj_streams.specs.Beginnings.{AppendsSome};
ghost use Rattle.fj_streams.specs.Tells.{WriterTells};
ghost use Rattle.fj_history.specs.Entries.{entries_text};
ghost use Rattle.fj_replay.specs.Plays.{asked_in, play_after};
ghost use Rattle.fj_replay.specs.Stops.{IsHeadStop, IsCutOff};
ghost use Rattle.fj_record.specs.Traces.{entries_of};

use fj_history::{Entry, push_entries};
use fj_lines::LineFault;
use fj_replay::{Asked, Player, Replied, ScriptStop, TaskNaming};
use fj_rules::{Event, InnerTypes, OutOfMemory};
use fj_streams::{LineStop, Sink, write_all};
use std::alloc::Global;
use std::marker::Model;

/// A player, and a buffer for the entries of a line. Contracts see the player.
#[derive(Drop)]
pub struct Tracer {
    player: Player,
    // the entries of the last line
    text: String,
}

impl Model for Tracer {
    ghost use Rattle.fj_replay.specs.Plays.{Play};

    ghost Value = { Play };

    ghost view = { λ t. t.player };
}

impl Tracer {
    /// A new machine by the heading. `Faulty` where it is no heading, `Limits` where a limit is out of its range, `Memory` where out of
    /// memory.
    pub fn open(
        alloc: Global,
        heading: &[u8],
        naming: TaskNaming,
    ) -> Result<Tracer, LineStop<ScriptStop>>
        ensures pool { IfOk result (λ t. pool_in heading.now ≡ Some t.past.pool) }
        ensures fresh { IfOk result (λ t. t.past ≡ start t.past.pool) }
        ensures naming { IfOk result (λ t. t.naming ≡ naming) }
        ensures err { IfErr result (IsHeadStop heading.now) }
    {
        let player = Player::open(alloc, heading, naming)?;
        Ok(Tracer {
            player,
            text: String::new(alloc),
        })
    }

    /// Reads what a line asks for. `LineFault` where it is no line of this version.
    pub fn read(&self, line: &[u8]) -> Result<Asked, LineFault>
        ensures { Reads (asked_in self.now.naming line.now) result }
    {
        self.player.read(line)
    }

    /// Does what is asked for, and writes the entries that it adds to the history. At `Memory` nothing was written, at `Write` only a part of
    /// them, or nothing.
    pub fn trace<W: Sink>(
        &mut self,
        alloc: Global,
        asked: Asked,
        w: &mut W,
    ) -> Result<(), LineStop<ScriptStop>>
        ensures play { OnOk result (self.new ≡ play_after self.old asked) }
        ensures written { OnOk result (Appends (W.contents w.old) (W.contents w.new) (entries_text (entries_of self.old asked))) }
        ensures err { IfErr result IsCutOff }
        ensures fine { OnOk result (IsFine (W.calls w.old) (W.calls w.new)) }
        ensures told { IfErr result (λ fault. WriterTells fault (W.calls w.old) (W.calls w.new)) }
        ensures some { OnErr result (AppendsSome (W.contents w.old) (W.contents w.new) (entries_text (entries_of self.old asked))) }
        ensures memory { result ≡ Err LineStop.Memory → Appends (W.contents w.old) (W.contents w.new) [] }
    {
        self.text.clear();
        let Ok(()) = push_made(alloc, &mut self.player, asked, &mut self.text) else {
            return Err(LineStop::Memory);
        };
        write_all(w, self.text.as_bytes())
    }
}

/// Does what is asked for, and appends the entries that it adds to the history.
fn push_made(
    alloc: Global,
    player: &mut Player,
    asked: Asked,
    text: &mut String,
) -> Result<(), OutOfMemory>
    ensures play { OnOk result (player.new ≡ play_after player.old asked) }
    ensures text { OnOk result (string_bytes text.new ≡ string_bytes text.old ++ entries_text (entries_of player.old asked)) }
{
    let _inside: Option<InnerTypes> = None;
    let before = player.history().len();
    match player.make(alloc, asked)? {
        Replied::Said(_) => push_entries(since(player.history(), before), text)?,
        Replied::Sealed(_, _) => Entry::Seal.push_line(text)?,
        Replied::NameTaken | Replied::Epoch(_, _) => {}
    }
    Ok(())
}

/// The events behind the first ones.
fn since(events: &[Event], before: usize) -> &[Event]
    requires { before ≤ length events.now }
    ensures { result.now ≡ drop before events.now }
{
    &events[before..]
}
