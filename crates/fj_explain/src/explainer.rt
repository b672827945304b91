use crate::facts::Facts;
use crate::fault::ExplainFault;
use crate::reason::Reason;
use crate::tasks::Tasks;
use fj_replay::{Asked, Player, Replied};
use fj_rules::{InnerTypes, Said, Step};
use std::alloc::{AllocError, Global};
use std::fmt::Write;

/// A script behind its heading: its machine, and what is known of its tasks.
#[derive(Drop)]
pub struct Explainer {
    player: Player,
    tasks: Tasks,
    is_stopped: bool,
}

/// What a line asked for, as far as its reason needs it.
#[derive(Clone, Copy)]
enum Deed {
    Step(Step),
    Seal,
    Epoch,
}

impl Explainer {
    pub fn new(alloc: Global, player: Player) -> Explainer {
        Explainer {
            player,
            tasks: Tasks {
                accepted: 0,
                names: Vec::new(alloc),
            },
            is_stopped: false,
        }
    }

    /// What a line asks for, if it is one.
    pub fn read(&self, line: &str) -> Option<Asked> {
        self.player.read(line.as_bytes()).ok()
    }

    /// Does what a line asks for, and writes the line with its reply, and the reason below.
    pub fn explain<W: Write>(
        &mut self,
        alloc: Global,
        line: &str,
        asked: Asked,
        w: &mut W,
    ) -> Result<(), ExplainFault> {
        let (deed, name) = deed_of(alloc, &asked)?;
        let Ok(reply) = self.player.make(alloc, asked) else {
            return Err(ExplainFault::Memory);
        };
        self.note(&deed, &reply, name)?;
        let line_of_reply = self.line_of(alloc, &reply)?;
        let said = line_of_reply.as_str().trim_end();
        writeln!(w, "{line} > {said}")?;
        if let Some(reason) = self.reason(&deed, &reply) {
            writeln!(w, "  # {said}: {reason}")?;
        }
        Ok(())
    }

    /// The line of a reply.
    fn line_of(&self, alloc: Global, reply: &Replied) -> Result<String, AllocError> {
        let mut text = String::new(alloc);
        let limits = self.player.limits();
        self.player.naming().push_line(*reply, &limits, &mut text)?;
        Ok(text)
    }

    /// Keeps what the machine does not tell: how many tasks there were, their names, and that there was a stop.
    fn note(
        &mut self,
        deed: &Deed,
        reply: &Replied,
        name: Option<String>,
    ) -> Result<(), AllocError> {
        let Replied::Said(said) = reply else {
            return Ok(());
        };
        if let (Deed::Step(Step::Stop), Said::Done) = (deed, said) {
            self.is_stopped = true;
        }
        match said {
            Said::Task(_) => self.tasks.add(name),
            _ => Ok(()),
        }
    }

    /// Why nothing was done.
    fn reason(&self, deed: &Deed, reply: &Replied) -> Option<Reason<'_>> {
        let _inside: Option<InnerTypes> = None;
        let facts = Facts {
            machine: self.player.machine(),
            tasks: &self.tasks,
            is_stopped: self.is_stopped,
        };
        match (deed, reply) {
            (_, Replied::NameTaken) => Some(Reason::NameTaken),
            (Deed::Step(step), Replied::Said(said)) => facts.of_reply(step, said),
            (Deed::Seal, Replied::Said(Said::Refused(refusal))) => facts.of_seal(*refusal),
            _ => None,
        }
    }
}

/// The same without the name, which stands beside it.
fn deed_of(alloc: Global, asked: &Asked) -> Result<(Deed, Option<String>), AllocError> {
    match asked {
        Asked::Step(step) => Ok((Deed::Step(*step), None)),
        Asked::Accept(name, step) => Ok((Deed::Step(*step), Some(format!(in alloc; "{name}")?))),
        Asked::Seal => Ok((Deed::Seal, None)),
        Asked::Epoch => Ok((Deed::Epoch, None)),
    }
}
