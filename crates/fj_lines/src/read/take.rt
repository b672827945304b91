//! The lines of `take`.
ghost use Rattle.fj_lines.specs.Words.{words_behind, Reads};
ghost use Rattle.fj_lines.specs.Readings.Take.{poll_in, help_in, join_in};

use crate::line::Line;
use crate::read::fault::LineFault;
use crate::read::numbers::two_numbers;
use crate::read::task::{TaskWord, worker_task_number};
use fj_rules::WorkerId;

/// Reads what follows `poll`: the worker and the scan word.
#[tactic(auto, unfolding(crate::specs::Readings::Take::poll_in))]
pub fn poll<T: Drop, N: Drop>(behind: &[u8]) -> Result<Line<T, N>, LineFault>
    ensures { Reads (poll_in (words_behind behind.now)) result }
{
    let (w, r) = two_numbers(behind)?;
    Ok(Line::Poll { w: WorkerId(w), r })
}

/// Reads what follows `help`: the worker and the scan word.
#[tactic(auto, unfolding(crate::specs::Readings::Take::help_in))]
pub fn help<T: Drop, N: Drop>(behind: &[u8]) -> Result<Line<T, N>, LineFault>
    ensures { Reads (help_in (words_behind behind.now)) result }
{
    let (w, r) = two_numbers(behind)?;
    Ok(Line::Help { w: WorkerId(w), r })
}

/// Reads what follows `join`: the worker, the task and the scan word.
#[tactic(auto, unfolding(crate::specs::Readings::Take::join_in))]
pub fn join<W: TaskWord>(behind: &[u8]) -> Result<Line<W, W::Label>, LineFault>
    ensures { Reads (join_in W.reader (words_behind behind.now)) result }
{
    let (w, t, r) = worker_task_number(behind)?;
    Ok(Line::Join {
        w: WorkerId(w),
        t,
        r,
    })
}
