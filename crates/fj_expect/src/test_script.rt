use crate::annotated::{Annotated, Written};
use crate::fault::TestFault;
use crate::mismatch::Mismatch;
use fj_replay::{ReplayFault, replay};
use fj_streams::InMemory;
use std::alloc::{AllocError, Global};
use std::str;

/// Runs a script, and compares its replies with the expected ones, which its lines name. Gives the first line that differs.
///
/// A line may have a reply behind `>`, a comment behind `#`, and any white space between its words. A line without a reply may have any. A
/// heading has none, or `refused 13`.
///
/// `Line` at the first line that is faulty, has a reply and no step, or is missing, and `Limits` where a limit is out of its range, if no
/// line before has another reply. `Memory` if out of memory.
pub fn test(alloc: Global, text: &str) -> Result<Option<Mismatch>, TestFault> {
    let annotated = Annotated::read(alloc, text)?;
    let mut rest = InMemory::new(annotated.script.as_bytes());
    let mut replies = Vec::new(alloc);
    let ended = replay(alloc, &mut rest, &mut replies);
    let refused = matches!(ended, Err(ReplayFault::Limits));
    let mismatch = mismatch_in(alloc, &annotated, refused, replies.as_slice())?;
    let foreseen = refused && annotated.foresees_refusal();
    match ended {
        Err(fault) if mismatch.is_none() && !foreseen => Err(annotated.fault(fault)),
        _ => Ok(mismatch),
    }
}

/// The first line of a script with another reply than the one behind it.
fn mismatch_in(
    alloc: Global,
    script: &Annotated<'_>,
    refused: bool,
    replies: &[u8],
) -> Result<Option<Mismatch>, AllocError> {
    let answers = answers(alloc, script.is_titled(), refused, replies)?;
    first_mismatch(alloc, script.lines.as_slice(), &answers)
}

/// A line for each line of a script, as far as it was replied to.
fn answers(
    alloc: Global,
    is_titled: bool,
    refused: bool,
    replies: &[u8],
) -> Result<String, AllocError> {
    let mut answers = String::new(alloc);
    if is_titled {
        answers.push_str("no reply\n")?;
    }
    answers.push_str(if refused {
        "refused 13\n"
    } else {
        "no reply\n"
    })?;
    // Replies are ASCII.
    answers.push_str(str::from_utf8(replies).unwrap_or(""))?;
    Ok(answers)
}

/// The first line with another answer than the reply behind it.
fn first_mismatch(
    alloc: Global,
    lines: &[Written<'_>],
    answers: &str,
) -> Result<Option<Mismatch>, AllocError> {
    for (line, answer) in lines.iter().zip(answers.lines()) {
        let expected = line.reply.unwrap_or(answer);
        if !has_same_words(answer, expected) {
            return Ok(Some(Mismatch {
                line: line.number,
                reply: String::from_str(alloc, answer)?,
                expected: String::from_str(alloc, expected)?,
            }));
        }
    }
    Ok(None)
}

fn has_same_words(a: &str, b: &str) -> bool {
    a.split_whitespace().eq(b.split_whitespace())
}
