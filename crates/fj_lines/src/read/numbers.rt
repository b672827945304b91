//! The numbers at the end of a line.
ghost use Rattle.fj_lines.specs.Words.{words_behind, one_number, two_numbers, Reads};

use crate::read::fault::LineFault;
use crate::read::words::{next_number, no_more};

/// Reads one number up to the end of the line. `LineFault` where there is something else.
#[tactic(auto, unfolding(crate::specs::Words::one_number))]
pub fn one_number(behind: &[u8]) -> Result<u32, LineFault>
    ensures { Reads (one_number (words_behind behind.now)) result }
{
    let (a, behind) = next_number(behind)?;
    no_more(behind)?;
    Ok(a)
}

/// Reads two numbers up to the end of the line. `LineFault` where there is something else.
#[tactic(auto, unfolding(crate::specs::Words::two_numbers))]
#[inline]
pub fn two_numbers(behind: &[u8]) -> Result<(u32, u32), LineFault>
    ensures { Reads (two_numbers (words_behind behind.now)) result }
{
    let (a, behind) = next_number(behind)?;
    let (b, behind) = next_number(behind)?;
    no_more(behind)?;
    Ok((a, b))
}
