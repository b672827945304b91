ghost use Rattle.std.specs.Prelude.{◌≡◌, [], Some, OnOk, OnErr, IfOk, IfErr};
ghost use Rattle.std.specs.Io.KnownBytes.{Appends};
ghost use Rattle.fj_lines.specs.Words.{Reads};
ghost use Rattle.fj_lines.specs.Headings.{pool_in, start};
ghost use Rattle.fj_streams.specs.Calls.{HasFailed, IsFine};
ghost use Rattle.fj_streams.specs.Tells.{WriterTells};
ghost use Rattle.fj_streams.specs.Beginnings.{AppendsSome};
ghost use Rattle.fj_replay.specs.Namings.{replied_line};
ghost use Rattle.fj_replay.specs.Plays.{asked_in, play_after, reply_text};
ghost use Rattle.fj_replay.specs.Starving.{StarvesAsked};
ghost use Rattle.fj_replay.specs.Stops.{IsHeadStop, IsCutOff};

use crate::asked::Asked;
use crate::player::Player;
use crate::replied::Replied;
use crate::script_stop::ScriptStop;
use crate::task_naming::TaskNaming;
use fj_lines::{LineFault, REPLY_ROOM};
use fj_rules::Limits;
use fj_streams::{LineStop, Sink, write_all};
use std::alloc::Global;
use std::marker::Model;

/// A player, and a buffer for replies. Contracts see the player.
#[derive(Drop)]
pub struct Responder {
    player: Player,
    limits: Limits,
    // the line of the last reply, with room for any
    line: String,
}

impl Model for Responder {
    ghost use Rattle.std.specs.Prelude.{◌≡◌, ◌≤◌, string_capacity};
    ghost use Rattle.fj_lines.specs.declared.write.TheConstants.{REPLY_ROOM};
    ghost use Rattle.fj_replay.specs.Plays.{Play};

    ghost Value = { Play };

    ghost view = { λ r. r.player };

    ghost invariant = { λ r. record {
      limits : r.limits ≡ r.player.past.pool.limits;
      room : REPLY_ROOM ≤ string_capacity r.line;
    } };
}

impl Responder {
    /// A new machine by the heading. `Faulty` where it is no heading, `Limits` where a limit is out of its range, `Memory` where out of
    /// memory.
    pub fn open(
        alloc: Global,
        heading: &[u8],
        naming: TaskNaming,
    ) -> Result<Responder, LineStop<ScriptStop>>
        ensures pool { IfOk result (λ r. pool_in heading.now ≡ Some r.past.pool) }
        ensures fresh { IfOk result (λ r. r.past ≡ start r.past.pool) }
        ensures naming { IfOk result (λ r. r.naming ≡ naming) }
        ensures err { IfErr result (IsHeadStop heading.now) }
    {
        let player = Player::open(alloc, heading, naming)?;
        let limits = player.limits();
        match String::with_capacity(alloc, REPLY_ROOM) {
            Ok(line) => Ok(Responder {
                player,
                limits,
                line,
            }),
            Err(_) => {
                // Explicit drops are proved faster.
                drop(player);
                Err(LineStop::Memory)
            }
        }
    }

    /// Reads what a line asks for. `LineFault` where it is no line of this version.
    pub fn read(&self, line: &[u8]) -> Result<Asked, LineFault>
        ensures { Reads (asked_in self.now.naming line.now) result }
    {
        self.player.read(line)
    }

    /// Does what is asked for, and writes the reply. At `Memory` nothing was written, at `Write` only a part of the reply, or nothing.
    pub fn reply<W: Sink>(
        &mut self,
        alloc: Global,
        asked: Asked,
        w: &mut W,
    ) -> Result<(), LineStop<ScriptStop>>
        ensures play { OnOk result (self.new ≡ play_after self.old asked) }
        ensures written { OnOk result (Appends (W.contents w.old) (W.contents w.new) (reply_text self.old asked)) }
        ensures err { IfErr result IsCutOff }
        ensures fine { OnOk result (IsFine (W.calls w.old) (W.calls w.new)) }
        ensures told { IfErr result (λ fault. WriterTells fault (W.calls w.old) (W.calls w.new)) }
        ensures some { OnErr result (AppendsSome (W.contents w.old) (W.contents w.new) (reply_text self.old asked)) }
        ensures memory { IfErr result (λ fault. StarvesAsked self.old asked fault (W.contents w.old) (W.contents w.new)) }
    {
        match self.player.make(alloc, asked) {
            Ok(reply) => self.write(reply, w),
            Err(_) => Err(LineStop::Memory),
        }
    }

    /// Writes a reply. At `Write` only a part of it, or nothing, was written.
    fn write<W: Sink>(&mut self, reply: Replied, w: &mut W) -> Result<(), LineStop<ScriptStop>>
        ensures same { self.new ≡ self.old }
        ensures written { OnOk result (Appends (W.contents w.old) (W.contents w.new) (replied_line self.old.naming self.old.past.pool.limits reply)) }
        ensures err { OnErr result (result ≡ Err LineStop.Write) }
        ensures fine { OnOk result (IsFine (W.calls w.old) (W.calls w.new)) }
        ensures told { OnErr result (HasFailed (W.calls w.old) (W.calls w.new)) }
        ensures some { OnErr result (AppendsSome (W.contents w.old) (W.contents w.new) (replied_line self.old.naming self.old.past.pool.limits reply)) }
    {
        self.line.clear();
        let naming = self.player.naming();
        match naming.push_line(reply, &self.limits, &mut self.line) {
            Ok(()) => write_all(w, self.line.as_bytes()),
            // There is room for each reply.
            Err(_) => unreachable!(),
        }
    }
}
