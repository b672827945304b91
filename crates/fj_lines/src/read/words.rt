//! The words of a line, in order.
ghost use Rattle.std.specs.Prelude.{◌≡◌, ◌==◌, ◌∷◌};
ghost use Rattle.std.specs.List.{position_or_len};
ghost use Rattle.fj_lines.specs.Words.{words, words_behind, word_first, number_first, is_last, IsOkIf, ReadsAs};

use crate::read::fault::LineFault;
use crate::read::number::read_number;

/// The byte between two words of a line.
const SPACE: u8 = b' ';

/// How many bytes the first word of a line has.
fn word_len(line: &[u8]) -> usize
    ensures { result ≡ position_or_len (λ b. b == SPACE) line.now }
{
    line.iter()
        .position(|byte| *byte == SPACE)
        .unwrap_or(line.len())
}

/// The first word of a line, and what follows it: nothing, or a space and the other words. [`next_word`] goes on from there.
pub fn first_word(line: &[u8]) -> (&[u8], &[u8])
    ensures { words line.now ≡ result.0.now ∷ words_behind result.1.now }
{
    line.split_at(word_len(line))
}

/// The next word after a word, and what follows it. `LineFault` where there is none.
pub fn next_word(behind: &[u8]) -> Result<(&[u8], &[u8]), LineFault>
    ensures { ReadsAs (λ p. (p.0.now, words_behind p.1.now)) (word_first (words_behind behind.now)) result }
{
    match behind.split_first() {
        Some((_, line)) => Ok(first_word(line)),
        None => Err(LineFault),
    }
}

/// The number in the next word, and what follows it. `LineFault` where there is no word or it is no number.
#[inline]
pub fn next_number(behind: &[u8]) -> Result<(u32, &[u8]), LineFault>
    ensures { ReadsAs (λ p. (p.0, words_behind p.1.now)) (number_first (words_behind behind.now)) result }
{
    let (word, behind) = next_word(behind)?;
    let number = read_number(word)?;
    Ok((number, behind))
}

/// Whether no word is left.
pub fn at_end(behind: &[u8]) -> bool
    ensures { result ≡ is_last (words_behind behind.now) }
{
    behind.is_empty()
}

/// `LineFault` where a word is left.
pub fn no_more(behind: &[u8]) -> Result<(), LineFault>
    ensures { IsOkIf (is_last (words_behind behind.now)) result }
{
    if at_end(behind) {
        Ok(())
    } else {
        Err(LineFault)
    }
}
