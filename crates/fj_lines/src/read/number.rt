ghost use Rattle.std.specs.Prelude.{◌≡◌, ◌↔◌, ◌<◌, ◌≤◌, length, slice_index, IsTrue};
ghost use Rattle.fj_lines.specs.Words.{number_in, Reads, ReadsDigits};

use crate::read::fault::LineFault;

/// Reads a decimal number: 0 to 4,294,967,295, without a sign and without leading zeros. `LineFault` where the word is something else.
pub fn read_number(word: &[u8]) -> Result<u32, LineFault>
    ensures { Reads (number_in word.now) result }
{
    if word.is_empty() || word.len() > 10 {
        return Err(LineFault);
    }
    if has_leading_zero(word) {
        return Err(LineFault);
    }
    let value = value_of(word)?;
    match u32::try_from(value) {
        Ok(number) => Ok(number),
        Err(_) => Err(LineFault),
    }
}

/// Whether the word begins with a zero and has more bytes.
fn has_leading_zero(word: &[u8]) -> bool
    ensures { IsTrue result ↔ ((slice_index word.now 0 ≡ 48) × (1 < length word.now)) }
{
    word.len() > 1 && word[0] == b'0'
}

/// The value of a word's digits. `LineFault` where a byte is no digit. Precondition: the word has at most 10 bytes.
fn value_of(word: &[u8]) -> Result<u64, LineFault>
    requires { length word.now ≤ 10 }
    ensures { ReadsDigits word.now result }
{
    let mut value: u64 = 0;
    for byte in word {
        if !byte.is_ascii_digit() {
            return Err(LineFault);
        }
        value = value * 10 + u64::from(*byte - b'0');
    }
    Ok(value)
}
