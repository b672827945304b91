ghost use Rattle.std.specs.Prelude.{◌≡◌, ◌≢◌, ◌++◌, ◌∷◌, ◌<◌, ◌≤◌, ℕ, MatchOption, decimal};
ghost use Rattle.fj_trees.specs.Separators.{Without};
ghost use Rattle.fj_trees.specs.Trees.{IsNodeAt, IsNoNode, ReadsParent, node_line};

use crate::node::Node;
use fj_lines::read_number;

/// The node that a line denotes at this place of a tree, counted from 0; None where it denotes none. Precondition: the place is below
/// 4,000.
#[tactic(auto, using(crate::proofs::NodeLines::is_line))]
pub(crate) fn read_node(line: &[u8], place: usize) -> Option<Node>
    requires { place < 4000 }
    ensures { MatchOption result (IsNoNode place line.now) (λ node. IsNodeAt place node × (line.now ≡ node_line node)) }
{
    let Some((first, second)) = split_at_space(line) else {
        return None;
    };
    let Some(parent) = read_parent(first, place) else {
        return None;
    };
    let Some(value) = number_up_to(second, 1_000_000_006) else {
        return None;
    };
    Some(Node { parent, value })
}

/// What is before and after the first space; None where there is no space.
#[tactic(auto, using(crate::proofs::Splits::cut_at))]
fn split_at_space(line: &[u8]) -> Option<(&[u8], &[u8])>
    ensures { MatchOption result (Without 32 line.now) (λ p. Without 32 p.0.now × (line.now ≡ p.0.now ++ 32 ∷ p.1.now)) }
{
    for i in 0..line.len() {
        if line[i] == b' ' {
            return Some((&line[..i], &line[i + 1..]));
        }
    }
    None
}

/// The parent that a word denotes: `-` for none, at place 0 alone, or the number of an earlier place. Precondition: the place is below
/// 4,000.
#[tactic(auto, using(crate::proofs::NodeLines::no_dash, crate::proofs::NodeLines::no_earlier))]
fn read_parent(word: &[u8], place: usize) -> Option<Option<u32>>
    requires { place < 4000 }
    ensures { ReadsParent word.now place result }
{
    if place == 0 {
        return if word == b"-".as_slice() {
            Some(None)
        } else {
            None
        };
    }
    match number_up_to(word, place as u32 - 1) {
        Some(parent) => Some(Some(parent)),
        None => None,
    }
}

/// The number of which a word is the decimal text, if it is at most `most`.
#[tactic(auto, using(crate::proofs::NodeLines::no_number, crate::proofs::NodeLines::number_is_text))]
fn number_up_to(word: &[u8], most: u32) -> Option<u32>
    ensures { MatchOption result ((n : ℕ) → n ≤ most → word.now ≢ decimal n) (λ n. (n ≤ most) × (word.now ≡ decimal n)) }
{
    match read_number(word) {
        Ok(number) => { if number <= most { Some(number) } else { None } }
        Err(_) => None,
    }
}
