ghost use Rattle.std.specs.Prelude.{◌≡◌, ◌∷◌, [], false, Some, MatchOption};
ghost use Rattle.std.specs.List.{list_all};
ghost use Rattle.fj_notes.specs.Labels.{IsLabel, is_label, is_plain, label_then, shown};

use std::fmt;
use std::marker::Model;

/// The most bytes of a label.
pub const MAX_LABEL: usize = 64;

/// How a task is called: at most [`MAX_LABEL`] printable ASCII characters, as `core.o`. Any other byte that is written to it becomes `?`, and
/// what is too long is cut.
///
/// Contracts see its bytes.
#[derive(Drop)]
pub struct Label {
    len: usize,
    bytes: [u8; MAX_LABEL],
}

impl Model for Label {
    ghost use Rattle.std.specs.Prelude.{ℕ, ◌≤◌, List, take};
    ghost use Rattle.fj_notes.specs.Labels.{IsLabel};
    ghost use Rattle.fj_notes.specs.declared.label.TheConstants.{MAX_LABEL};

    ghost Value = { List ℕ };

    ghost view = { λ l. take l.len l.bytes };

    ghost invariant = { λ l. (l.len ≤ MAX_LABEL) × IsLabel (take l.len l.bytes) };
}

impl fmt::Write for Label {
    ghost write_str_gives = { λ old text new. new ≡ label_then old text };

    fn write_str(&mut self, text: &str) -> fmt::Result {
        // For the proof: what is written so far is a label.
        let _label = self.as_bytes();
        for byte in text.as_bytes() {
            self.push(*byte);
        }
        Ok(())
    }
}

impl fmt::Display for Label {
    ghost output = { λ l. Some l };

    fn fmt<W: fmt::Write>(&self, f: &mut fmt::Formatter<W>) -> fmt::Result {
        f.write_str(self.as_str())
    }
}

impl Label {
    /// An empty label, to write to.
    pub fn new() -> Label
        ensures { result ≡ [] }
    {
        Label {
            len: 0,
            bytes: [0; MAX_LABEL],
        }
    }

    /// The bytes as a label. None where they are none.
    pub fn from_bytes(bytes: &[u8]) -> Option<Label>
        ensures { MatchOption result (is_label bytes.now ≡ false) (λ label. IsLabel bytes.now × (label ≡ bytes.now)) }
    {
        if !is_label(bytes) {
            return None;
        }
        let mut copy = [0u8; MAX_LABEL];
        copy[..bytes.len()].copy_from_slice(bytes);
        Some(Label {
            len: bytes.len(),
            bytes: copy,
        })
    }

    /// The same label.
    pub fn copied(&self) -> Label
        ensures { result ≡ self.now }
    {
        Label {
            len: self.len,
            bytes: self.bytes,
        }
    }

    /// Its bytes.
    pub fn as_bytes(&self) -> &[u8]
        ensures bytes { result.now ≡ self.now }
        ensures label { IsLabel self.now }
    {
        &self.bytes[..self.len]
    }

    /// Its text.
    pub fn as_str(&self) -> &str
        ensures { result.now ≡ self.now }
    {
        let Ok(text) = str::from_utf8(self.as_bytes()) else {
            unreachable!();
        };
        text
    }

    /// Appends a byte, as it is shown, if there is room.
    fn push(&mut self, byte: u8)
        ensures { self.new ≡ label_then self.old (byte ∷ []) }
    {
        if self.len < MAX_LABEL {
            self.bytes[self.len] = shown(byte);
            self.len += 1;
        }
    }
}

/// Whether the bytes are a label.
fn is_label(bytes: &[u8]) -> bool
    ensures { result ≡ is_label bytes.now }
{
    bytes.len() <= MAX_LABEL && are_plain(bytes)
}

fn are_plain(bytes: &[u8]) -> bool
    ensures { result ≡ list_all is_plain bytes.now }
{
    bytes.iter().all(|byte| is_plain(*byte))
}

/// Whether the byte is a printable ASCII character.
fn is_plain(byte: u8) -> bool
    ensures { result ≡ is_plain byte }
{
    b' ' <= byte && byte <= b'~'
}

/// The byte in a label: itself, or `?`.
fn shown(byte: u8) -> u8
    ensures { result ≡ shown byte }
{
    if is_plain(byte) { byte } else { b'?' }
}
