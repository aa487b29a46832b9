//! The name of a boundary, a boundary group or a point group.
ghost use Rattle.std.specs.Prelude.{◌≡◌, true};
ghost use Rattle.std.specs.List.{list_all};
ghost use Rattle.cm_base.specs.Names.{is_label, is_printable, text_if};

use crate::ShortText;
use std::marker::Model;

/// The name of a boundary, a boundary group or a point group: 1 to 63 bytes from 0x20 to 0x7E, compared exactly.
/// Contracts see the list of them.
#[derive(Clone, Copy, PartialEq, Eq, PartialOrd, Ord)]
pub struct Label {
    text: ShortText<63>,
}

impl Model for Label {
    ghost use Rattle.std.specs.Prelude.{◌≡◌, ℕ, List, true, refl};
    ghost use Rattle.cm_base.specs.Names.{is_label};

    ghost Value = { List ℕ };

    ghost view = { λ label. label.text };

    ghost invariant = { λ label. is_label label.text ≡ true };

    ghost inverse = { λ text. record { text = text } };

    ghost inverse_ok = { λ label h. refl };
}

fn are_printable(text: &[u8]) -> bool
    ensures { result ≡ list_all is_printable text.now }
{
    text.iter().all(|byte| matches!(*byte, 0x20..=0x7E))
}

impl Label {
    /// The label that a text is. None exactly where it is empty, has more than 63 bytes, or one that is not printable ASCII.
    pub fn read(text: &[u8]) -> Option<Label>
        ensures { result ≡ text_if (is_label text.now) text.now }
    {
        if text.is_empty() || text.len() > 63 {
            return None;
        }
        if are_printable(text) {
            Some(Label {
                text: ShortText::from_slice(text),
            })
        } else {
            None
        }
    }

    /// The bytes of the label.
    pub fn as_bytes(&self) -> &[u8]
        ensures { result.now ≡ self.now }
    {
        self.text.as_bytes()
    }

    /// The text is a label, which is said here alone.
    pub fn show_form(&self)
        ensures { is_label self.now ≡ true }
    {
        let _ = &self.text;
    }
}
