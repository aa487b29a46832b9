//! Reading the name of a site.
ghost use Rattle.std.specs.Prelude.{◌≡◌, ◌≤◌, MatchResult, None};
ghost use Rattle.cm_base.specs.Names.{name_of, fold_byte, is_name_byte};
ghost use Rattle.cm_net.specs.Texts.{LeavesAt};
ghost use Rattle.cm_net.specs.Written.{IsSite};

use crate::SiteName;

fn folded(byte: u8) -> u8
    ensures { result ≡ fold_byte byte }
{
    byte.to_ascii_lowercase()
}

fn is_name_byte(byte: u8) -> bool
    ensures { result ≡ is_name_byte byte }
{
    byte.is_ascii_lowercase() || byte.is_ascii_digit() || matches!(byte, b'-' | b'_' | b'.')
}

/// The place at which a text that is no name leaves their grammar.
fn end_of_name(text: &[u8]) -> usize
    requires { name_of text.now ≡ None }
    ensures leaves { LeavesAt IsSite text.now result }
    ensures near { result ≤ 63 }
{
    for at in 0..text.len() {
        if at == 63 {
            return at;
        }
        if !is_name_byte(folded(text[at])) {
            return at;
        }
    }
    text.len()
}

/// The name of a site that a text spells, or the place at which the text leaves the grammar of names.
pub(crate) fn site_of(text: &[u8]) -> Result<SiteName, usize>
    ensures { MatchResult result (λ name. IsSite text.now name) (λ at. LeavesAt IsSite text.now at × (at ≤ 63)) }
{
    match SiteName::read(text) {
        Some(name) => Ok(name),
        None => Err(end_of_name(text)),
    }
}
