//! A note is written as bytes.
ghost use Rattle.std.specs.Prelude.{◌≡◌, ◌+◌, ◌≤◌, ◌∷◌, ◌++◌, length, take, true};
ghost use Rattle.cm_base.specs.Names.{is_folded_name, is_label};
ghost use Rattle.cm_notes.specs.Notes.{IsContent, IsRecord, IsTo, content_fields, text_field, to_fields, spelled};

use crate::{Note, To};
use cm_base::{Label, PackageId, ServerName, Version};

// Puts a piece at a place, and answers the place behind it.
fn put(out: &mut [u8; 128], at: usize, piece: &[u8]) -> usize
    requires { at + length piece.now ≤ 128 }
    ensures end { result ≡ at + length piece.now }
    ensures bytes { take result out.new ≡ take at out.old ++ piece.now }
{
    let end = at + piece.len();
    out[at..end].copy_from_slice(piece);
    end
}

fn put_text(out: &mut [u8; 128], at: usize, text: &[u8]) -> usize
    requires short { length text.now ≤ 63 }
    requires room { at ≤ 64 }
    ensures end { result ≡ at + 1 + length text.now }
    ensures bytes { take result out.new ≡ take at out.old ++ text_field text.now }
{
    let at = put(out, at, &[text.len() as u8]);
    put(out, at, text)
}

fn put_name(out: &mut [u8; 128], at: usize, name: &ServerName) -> usize
    requires { at ≤ 64 }
    ensures form { is_folded_name name.now ≡ true }
    ensures short { length name.now ≤ 63 }
    ensures end { result ≡ at + 1 + length name.now }
    ensures bytes { take result out.new ≡ take at out.old ++ text_field name.now }
{
    name.show_form();
    put_text(out, at, name.as_bytes())
}

fn put_label(out: &mut [u8; 128], at: usize, label: &Label) -> usize
    requires { at ≤ 64 }
    ensures form { is_label label.now ≡ true }
    ensures short { length label.now ≤ 63 }
    ensures end { result ≡ at + 1 + length label.now }
    ensures bytes { take result out.new ≡ take at out.old ++ text_field label.now }
{
    label.show_form();
    put_text(out, at, label.as_bytes())
}

fn put_content(out: &mut [u8; 128], at: usize, package: &PackageId, version: Version) -> usize
    requires { at ≤ 116 }
    ensures form { IsContent «package».now version }
    ensures end { result ≡ at + 12 }
    ensures bytes { take result out.new ≡ take at out.old ++ content_fields «package».now version }
{
    let at = put(out, at, package.as_bytes());
    put(out, at, &version.number().to_le_bytes())
}

fn put_to(out: &mut [u8; 128], at: usize, to: &To) -> usize
    requires { at ≤ 63 }
    ensures form { IsTo to.now }
    ensures short { length (to_fields to.now) ≤ 65 }
    ensures end { result ≡ at + length (to_fields to.now) }
    ensures bytes { take result out.new ≡ take at out.old ++ to_fields to.now }
{
    match to {
        To::Point { name } => {
            let at = put(out, at, &[0]);
            put_name(out, at, name)
        }
        To::Group { name } => {
            let at = put(out, at, &[1]);
            put_label(out, at, name)
        }
    }
}

// Puts a kind, a name, and a package and a version of it.
fn put_point(
    out: &mut [u8; 128],
    kind: u8,
    name: &ServerName,
    package: &PackageId,
    version: Version,
) -> usize
    ensures form { is_folded_name name.now ≡ true }
    ensures content { IsContent «package».now version }
    ensures short { length name.now ≤ 63 }
    ensures end { result ≡ 14 + length name.now }
    ensures bytes { take result out.new ≡ kind ∷ text_field name.now ++ content_fields «package».now version }
{
    let at = put(out, 0, &[kind]);
    let at = put_name(out, at, name);
    put_content(out, at, package, version)
}

impl Note {
    /// Writes the one spelling of the note to the front of the buffer, and answers its length in bytes: at most 109.
    /// What stands behind it in the buffer means nothing.
    pub fn encode(&self, out: &mut [u8; 128]) -> usize
        ensures fits { result ≤ 128 }
        ensures length { result ≡ length (spelled self.now) }
        ensures bytes { take result out.new ≡ spelled self.now }
        ensures record { IsRecord self.now (take result out.new) }
    {
        match self {
            Note::Topology {
                number,
                size,
                hash,
                minute,
            } => {
                let at = put(out, 0, &[1]);
                let at = put(out, at, &number.to_le_bytes());
                let at = put(out, at, &size.to_le_bytes());
                let at = put(out, at, &hash.0);
                put(out, at, &minute.to_le_bytes())
            }
            Note::Sent {
                package,
                version,
                to,
                minute,
            } => {
                let at = put(out, 0, &[2]);
                let at = put_content(out, at, package, *version);
                let at = put_to(out, at, to);
                put(out, at, &minute.to_le_bytes())
            }
            Note::Installed {
                point,
                package,
                version,
            } => put_point(out, 3, point, package, *version),
            Note::Tried {
                point,
                package,
                version,
                due,
            } => {
                let at = put_point(out, 4, point, package, *version);
                put(out, at, &due.to_le_bytes())
            }
            Note::Leaving {
                point,
                package,
                version,
            } => put_point(out, 5, point, package, *version),
            Note::Gone {
                point,
                package,
                version,
            } => put_point(out, 6, point, package, *version),
            Note::Deleted { package, version } => {
                let at = put(out, 0, &[7]);
                put_content(out, at, package, *version)
            }
            Note::PeerState {
                name,
                low,
                load,
                queue,
                used,
            } => {
                let at = put(out, 0, &[8]);
                let at = put_name(out, at, name);
                let at = put(out, at, &[u8::from(*low), *load]);
                let at = put(out, at, &queue.to_le_bytes());
                put(out, at, &used.to_le_bytes())
            }
            Note::Cached {
                name,
                package,
                version,
                hash,
            } => {
                let at = put_point(out, 9, name, package, *version);
                put(out, at, &hash.0)
            }
        }
    }
}
