//! Tasks in a line.
ghost use Rattle.fj_lines.specs.Words.{words_behind, Reads, ReadsAs};
ghost use Rattle.fj_lines.specs.Readings.Tasks.{TaskReader, name_in, task_first, numbers_read, names_read, one_task, worker_task_number};

use crate::name::Name;
use crate::read::fault::LineFault;
use crate::read::number::read_number;
use crate::read::numbers::one_number;
use crate::read::words::{next_number, next_word, no_more};
use fj_rules::Serial;

/// How a line names a task: by its number in version 1, by its name in version 2.
pub trait TaskWord: Drop + Sized {
    /// What a line gives to a new task, in front of its other words.
    type Label: Drop;

    /// The definitions of both readers below.
    ghost reader: { TaskReader Self Self.Label };

    /// Reads a task. `LineFault` where the word is none.
    fn read(word: &[u8]) -> Result<Self, LineFault>
        ensures { Reads (reader.task_in word.now) result };

    /// The label, and what follows it. `LineFault` where there is none.
    fn read_label(behind: &[u8]) -> Result<(Self::Label, &[u8]), LineFault>
        ensures { ReadsAs (λ p. (p.0, words_behind p.1.now)) (reader.label_in (words_behind behind.now)) result };
}

impl TaskWord for Serial {
    type Label = ();

    ghost reader = { numbers_read };

    fn read(word: &[u8]) -> Result<Serial, LineFault> {
        let number = read_number(word)?;
        Ok(Serial(u64::from(number)))
    }

    /// Nothing, since tasks are counted.
    fn read_label(behind: &[u8]) -> Result<((), &[u8]), LineFault> {
        Ok(((), behind))
    }
}

impl TaskWord for Name {
    type Label = Name;

    ghost reader = { names_read };

    fn read(word: &[u8]) -> Result<Name, LineFault> {
        read_name(word)
    }

    /// Its name.
    fn read_label(behind: &[u8]) -> Result<(Name, &[u8]), LineFault> {
        let (word, behind) = next_word(behind)?;
        let name = read_name(word)?;
        Ok((name, behind))
    }
}

/// The word as a name. `LineFault` where it is not one.
#[tactic(auto, unfolding(crate::specs::Readings::Tasks::name_in))]
fn read_name(word: &[u8]) -> Result<Name, LineFault>
    ensures { Reads (name_in word.now) result }
{
    match Name::from_word(word) {
        Some(name) => Ok(name),
        None => Err(LineFault),
    }
}

/// The task in the next word, and what follows. `LineFault` where there is no word or it is no task.
pub fn next_task<W: TaskWord>(behind: &[u8]) -> Result<(W, &[u8]), LineFault>
    ensures { ReadsAs (λ p. (p.0, words_behind p.1.now)) (task_first W.reader.task_in (words_behind behind.now)) result }
{
    let (word, behind) = next_word(behind)?;
    let t = W::read(word)?;
    Ok((t, behind))
}

/// Reads a task up to the end of the line. `LineFault` where there is something else.
#[tactic(auto, unfolding(crate::specs::Readings::Tasks::one_task))]
pub fn one_task<W: TaskWord>(behind: &[u8]) -> Result<W, LineFault>
    ensures { Reads (one_task W.reader.task_in (words_behind behind.now)) result }
{
    let (t, behind) = next_task(behind)?;
    no_more(behind)?;
    Ok(t)
}

/// Reads a worker, a task and a number up to the end of the line. `LineFault` where there is something else.
#[tactic(auto, unfolding(crate::specs::Readings::Tasks::worker_task_number))]
pub fn worker_task_number<W: TaskWord>(behind: &[u8]) -> Result<(u32, W, u32), LineFault>
    ensures { Reads (worker_task_number W.reader.task_in (words_behind behind.now)) result }
{
    let (w, behind) = next_number(behind)?;
    let (t, behind) = next_task(behind)?;
    let n = one_number(behind)?;
    Ok((w, t, n))
}
