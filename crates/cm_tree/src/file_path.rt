//! The path of a file.
ghost use Rattle.std.specs.Prelude.{◌≡◌, ◌≤◌, ◌&&◌, ◌==◌, not, length, take, map, true};
ghost use Rattle.std.specs.List.{list_all};
ghost use Rattle.std.specs.Ordering.{nat_cmp, as_partial_cmp};
ghost use Rattle.std.specs.Cmp.{partial_order_from_own_ties};
ghost use Rattle.std.specs.Cmp.Rules.{comparing};
ghost use Rattle.std.specs.Cmp.Lexicographic.{slice_cmp, pointwise};
ghost use Rattle.std.proofs.Common.{rules};
ghost use Rattle.cm_base.specs.Names.{text_if, fold_byte};
ghost use Rattle.cm_tree.specs.Paths.{is_file_path, is_path_byte, is_dots, parts_of, folded_path};

use cm_base::ShortText;
use std::cmp::Ordering;
use std::marker::Model;

/// The path of a file: 1 to 240 bytes from 0x20 to 0x7E without `\ : * ? " < > |`. Its parts are joined by `/`, and none is
/// empty, `.` or `..`. Paths are ordered by their bytes. Contracts see the list of them.
#[derive(Clone, Copy)]
pub struct FilePath {
    text: ShortText<240>,
}

impl Model for FilePath {
    ghost use Rattle.std.specs.Prelude.{◌≡◌, ℕ, List, true, refl};
    ghost use Rattle.cm_tree.specs.Paths.{is_file_path};

    ghost Value = { List ℕ };

    ghost view = { λ path. path.text };

    ghost invariant = { λ path. is_file_path path.text ≡ true };

    ghost inverse = { λ text. record { text = text } };

    ghost inverse_ok = { λ path h. refl };
}

fn is_barred(byte: u8) -> bool
    ensures { result ≡ not (is_path_byte byte) }
{
    !matches!(byte, 0x20..=0x7E)
        || matches!(byte, b'\\' | b':' | b'*' | b'?' | b'"' | b'<' | b'>' | b'|')
}

fn are_path_bytes(text: &[u8]) -> bool
    ensures { result ≡ list_all is_path_byte text.now }
{
    text.iter().all(|byte| !is_barred(*byte))
}

fn names_a_part(part: &[u8]) -> bool
    ensures { result ≡ not (is_dots part.now) }
{
    match part {
        [] => false,
        [only] => *only != b'.',
        [first, second] => *first != b'.' || *second != b'.',
        _ => true,
    }
}

fn are_parts(text: &[u8]) -> bool
    ensures { result ≡ list_all (λ part. not (is_dots part)) (parts_of text.now) }
{
    text.split(|byte| *byte == b'/').all(names_a_part)
}

fn fold_one(byte: u8) -> u8
    ensures { result ≡ fold_byte byte }
{
    match byte {
        b'A'..=b'Z' => byte + 32,
        _ => byte,
    }
}

/// The bytes, folded.
fn folded_bytes(text: &[u8]) -> [u8; 240]
    requires { length text.now ≤ 240 }
    ensures { take (length text.now) result ≡ map fold_byte text.now }
{
    let mut bytes = [0; 240];
    for i in 0..text.len() {
        bytes[i] = fold_one(text[i]);
    }
    bytes
}

impl FilePath {
    /// The path that a text is. None exactly where it is not of the form of a path.
    pub fn read(text: &[u8]) -> Option<FilePath>
        ensures { result ≡ text_if (is_file_path text.now) text.now }
    {
        if text.is_empty() || text.len() > 240 {
            return None;
        }
        if are_path_bytes(text) && are_parts(text) {
            Some(FilePath {
                text: ShortText::from_slice(text),
            })
        } else {
            None
        }
    }

    /// The bytes of the path.
    pub fn as_bytes(&self) -> &[u8]
        ensures value { result.now ≡ self.now }
        ensures form { is_file_path result.now ≡ true }
        ensures some { 1 ≤ length result.now }
        ensures few { length result.now ≤ 240 }
    {
        self.text.as_bytes()
    }

    /// The bytes of the path with A to Z folded to a to z.
    pub fn folded(&self) -> ShortText<240>
        ensures { result ≡ folded_path self.now }
    {
        let text = self.as_bytes();
        let bytes = folded_bytes(text);
        ShortText::from_slice(&bytes[..text.len()])
    }
}

impl PartialEq for FilePath {
    ghost eq = { pointwise ◌==◌ };

    ghost laws = { Prim.search (comparing, rules) };

    fn eq(&self, other: &FilePath) -> bool {
        self.as_bytes() == other.as_bytes()
    }
}

impl Eq for FilePath {
    ghost laws = { Prim.search (comparing, rules) };
}

impl PartialOrd for FilePath {
    ghost partial_cmp = { as_partial_cmp (slice_cmp nat_cmp) };

    ghost laws = { partial_order_from_own_ties (Prim.search (comparing, rules)) (Prim.search (comparing, rules)) };

    fn partial_cmp(&self, other: &FilePath) -> Option<Ordering> {
        Some(self.cmp(other))
    }
}

impl Ord for FilePath {
    ghost cmp = { slice_cmp nat_cmp };

    ghost total = { Prim.search (comparing, rules) };

    ghost matches_partial_cmp = { Prim.search (comparing, rules) };

    ghost matches_eq = { Prim.search (comparing, rules) };

    fn cmp(&self, other: &FilePath) -> Ordering {
        self.as_bytes().cmp(other.as_bytes())
    }
}
