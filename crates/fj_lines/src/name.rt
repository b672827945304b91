ghost use Rattle.std.specs.Prelude.{◌≡◌, ◌≤◌, false, length, Some, MatchOption};
ghost use Rattle.std.specs.List.{list_all};
ghost use Rattle.std.specs.Hash as fed;
ghost use Rattle.std.specs.Str.{bytes_eq};
ghost use Rattle.std.specs.Cmp.Lexicographic.{nat_list_eq_equiv};
ghost use Rattle.std.specs.Cmp.{partial_equiv_from_equiv};
ghost use Rattle.std.specs.Cmp.Rules.{hashing};
ghost use Rattle.std.proofs.Common.{rules};
ghost use Rattle.fj_lines.specs.Names.{IsName, is_letter, is_name, is_name_byte};

use std::fmt;
use std::hash::{Hash, Hasher};
use std::marker::Model;

/// The most bytes of a name.
pub const MAX_NAME: usize = 16;

/// The name of a task in a script: 1 to [`MAX_NAME`] bytes of `a` to `z`, `0` to `9` and `_`, the first a letter. Java's tasks have none.
///
/// Contracts see its bytes.
#[derive(Drop)]
pub struct Name {
    len: usize,
    bytes: [u8; MAX_NAME],
}

impl Model for Name {
    ghost use Rattle.std.specs.Prelude.{ℕ, ◌≤◌, List, take};
    ghost use Rattle.fj_lines.specs.Names.{IsName};
    ghost use Rattle.fj_lines.specs.declared.name.TheConstants.{MAX_NAME};

    ghost Value = { List ℕ };

    ghost view = { λ n. take n.len n.bytes };

    ghost invariant = { λ n. (n.len ≤ MAX_NAME) × IsName (take n.len n.bytes) };
}

impl PartialEq for Name {
    ghost eq = { bytes_eq };

    ghost laws = { partial_equiv_from_equiv nat_list_eq_equiv };

    fn eq(&self, other: &Name) -> bool {
        self.as_bytes() == other.as_bytes()
    }
}

impl Eq for Name {
    ghost laws = { nat_list_eq_equiv };
}

impl Hash for Name {
    ghost hash_input = { fed.slice fed.u8 };

    ghost respects_eq = { Prim.search (hashing, rules) };

    fn hash<H: Hasher>(&self, state: &mut H) {
        self.as_bytes().hash(state);
    }
}

impl fmt::Display for Name {
    ghost output = { λ n. Some n };

    fn fmt<W: fmt::Write>(&self, f: &mut fmt::Formatter<W>) -> fmt::Result {
        f.write_str(self.as_str())
    }
}

impl Name {
    /// The word as a name. None where it is not one.
    pub fn from_word(word: &[u8]) -> Option<Name>
        ensures { MatchOption result (is_name word.now ≡ false) (λ name. IsName word.now × (name ≡ word.now)) }
    {
        if !is_name(word) {
            return None;
        }
        let mut bytes = [0u8; MAX_NAME];
        bytes[..word.len()].copy_from_slice(word);
        Some(Name {
            len: word.len(),
            bytes,
        })
    }

    /// Its bytes.
    pub fn as_bytes(&self) -> &[u8]
        ensures bytes { result.now ≡ self.now }
        ensures name { IsName self.now }
    {
        &self.bytes[..self.len]
    }

    /// Its text.
    pub fn as_str(&self) -> &str
        ensures text { result.now ≡ self.now }
        ensures short { length result.now ≤ MAX_NAME }
    {
        let Ok(text) = str::from_utf8(self.as_bytes()) else {
            unreachable!();
        };
        text
    }
}

fn is_name(word: &[u8]) -> bool
    ensures { result ≡ is_name word.now }
{
    match word.split_first() {
        None => false,
        Some((first, others)) => {
            is_letter(*first) && word.len() <= MAX_NAME && are_name_bytes(others)
        }
    }
}

fn are_name_bytes(bytes: &[u8]) -> bool
    ensures { result ≡ list_all is_name_byte bytes.now }
{
    bytes.iter().all(|byte| is_name_byte(*byte))
}

fn is_name_byte(byte: u8) -> bool
    ensures { result ≡ is_name_byte byte }
{
    is_letter(byte) || (b'0' <= byte && byte <= b'9') || byte == b'_'
}

fn is_letter(byte: u8) -> bool
    ensures { result ≡ is_letter byte }
{
    b'a' <= byte && byte <= b'z'
}
