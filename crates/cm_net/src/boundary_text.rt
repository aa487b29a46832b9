//! Reading a boundary.
ghost use Rattle.std.specs.Prelude.{◌≡◌, ◌++◌, ◌∷◌, ℕ, List, Some, None, MatchOption};
ghost use Rattle.cm_net.specs.Written.{IsBits};
ghost use Rattle.cm_net.specs.Free.{IsFree};

use crate::four_reader::FourReader;

/// What stands before the first separator, and what behind it, where there is one.
pub(crate) fn split(text: &[u8], separator: u8) -> (&[u8], Option<&[u8]>)
    ensures free { IsFree separator result.0.now }
    ensures whole { MatchOption result.1 (text.now ≡ result.0.now) (λ rest. text.now ≡ result.0.now ++ separator ∷ rest.now) }
{
    for at in 0..text.len() {
        if text[at] == separator {
            return (&text[..at], Some(&text[at + 1..]));
        }
    }
    (text, None)
}

/// The rest of a text that begins with a word.
pub(crate) fn behind<'a>(text: &'a [u8], word: &[u8]) -> Option<&'a [u8]>
    ensures { MatchOption result ((rest : List ℕ) → text.now ≡ word.now ++ rest → ⊥) (λ rest. text.now ≡ word.now ++ rest.now) }
{
    if text.len() < word.len() {
        return None;
    }
    let (front, rest) = text.split_at(word.len());
    if front == word { Some(rest) } else { None }
}

/// The number of bits that a text spells, at most `most`.
pub(crate) fn bits_of(text: &[u8], most: u8) -> Option<u8>
    ensures { MatchOption result ((bits : ℕ) → IsBits most text.now bits → ⊥) (λ bits. IsBits most text.now bits) }
{
    let mut reader = FourReader::new();
    for byte in text {
        if !reader.step(*byte) {
            return None;
        }
    }
    match reader.lone() {
        Some(bits) => { if bits <= most { Some(bits) } else { None } }
        None => None,
    }
}
