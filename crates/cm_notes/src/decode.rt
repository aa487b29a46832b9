//! Bytes are read as a note.
ghost use Rattle.std.specs.Prelude.{◌≡◌, ◌+◌, ◌≤◌, ℕ, List, Option, length, drop, if◌then◌else◌, cond, None, Some, Bool, IfSome, option_map};
ghost use Rattle.std.specs.Option.{option_and_then};
ghost use Rattle.cm_base.specs.Names.{is_folded_name, is_label, text_if};
ghost use Rattle.cm_pkglib.specs.Changes.{number_4, number_8, hash_at, version_at, package_at};
ghost use Rattle.cm_notes.specs.Notes.{IsRecord};
ghost use Rattle.cm_notes.specs.Reading.{behind_text, content_of, number_2, of_content, of_point, peer_state, read_note, read_sent, read_topology, receiver_of, sent_to};
ghost use Rattle.cm_notes.specs.declared.note.Note.{Note};
ghost use Rattle.cm_notes.specs.declared.note.Note.TheVariants.{Cached, Deleted, Gone, Installed, Leaving, Tried};

use crate::{Note, To};
use cm_base::{Hash, Label, PackageId, ServerName, Version};

fn number_at_2(bytes: &[u8], at: usize) -> u16
    requires { at + 2 ≤ length bytes.now }
    ensures { result ≡ number_2 at bytes.now }
{
    let mut two = [0; 2];
    two.copy_from_slice(&bytes[at..at + 2]);
    u16::from_le_bytes(two)
}

fn number_at_4(bytes: &[u8], at: usize) -> u32
    requires { at + 4 ≤ length bytes.now }
    ensures { result ≡ number_4 at bytes.now }
{
    let mut four = [0; 4];
    four.copy_from_slice(&bytes[at..at + 4]);
    u32::from_le_bytes(four)
}

fn number_at_8(bytes: &[u8], at: usize) -> u64
    requires { at + 8 ≤ length bytes.now }
    ensures { result ≡ number_8 at bytes.now }
{
    let mut eight = [0; 8];
    eight.copy_from_slice(&bytes[at..at + 8]);
    u64::from_le_bytes(eight)
}

fn digest_at(bytes: &[u8], at: usize) -> Hash
    requires { at + 32 ≤ length bytes.now }
    ensures { result ≡ hash_at at bytes.now }
{
    let mut digest = [0; 32];
    digest.copy_from_slice(&bytes[at..at + 32]);
    Hash(digest)
}

fn version_of(bytes: &[u8], at: usize) -> Option<Version>
    requires { at + 4 ≤ length bytes.now }
    ensures { result ≡ version_at at bytes.now }
{
    Version::new(number_at_4(bytes, at))
}

#[tactic(auto, unfolding(cm_pkglib::specs::Changes::package_at))]
fn package_of(bytes: &[u8], at: usize) -> Option<PackageId>
    requires { at + 8 ≤ length bytes.now }
    ensures { result ≡ package_at at bytes.now }
{
    PackageId::read(&bytes[at..at + 8])
}

// The package and the version in the first twelve bytes.
fn content_before(bytes: &[u8]) -> Option<(PackageId, Version)>
    requires { 12 ≤ length bytes.now }
    ensures { (note : List ℕ → ℕ → Note) → of_content note (package_at 0 bytes.now) (version_at 8 bytes.now) ≡ option_map (λ content. note content.0 content.1) result }
{
    match (package_of(bytes, 0), version_of(bytes, 8)) {
        (Some(package), Some(version)) => Some((package, version)),
        _ => None,
    }
}

// The text in front of the bytes, behind its length, and the bytes behind it.
fn text_before(bytes: &[u8]) -> Option<(&[u8], &[u8])>
    ensures { (is_form : List ℕ → Bool) (says : List ℕ → List ℕ → Option Note) → behind_text is_form says bytes.now ≡ option_and_then (λ parts. if is_form parts.0.now then says parts.0.now parts.1.now else None) result }
{
    let [count, rest @ ..] = bytes else {
        return None;
    };
    let count = usize::from(*count);
    if count <= rest.len() {
        Some(rest.split_at(count))
    } else {
        None
    }
}

// The name that a text is. None exactly where it is no name, or not folded.
fn name_of(text: &[u8]) -> Option<ServerName>
    ensures { result ≡ text_if (is_folded_name text.now) text.now }
{
    let name = ServerName::read(text)?;
    if name.as_bytes() == text {
        Some(name)
    } else {
        None
    }
}

fn name_before(bytes: &[u8]) -> Option<(ServerName, &[u8])>
    ensures { (says : List ℕ → List ℕ → Option Note) → behind_text is_folded_name says bytes.now ≡ option_and_then (λ parts. says parts.0 parts.1.now) result }
{
    let (text, rest) = text_before(bytes)?;
    let name = name_of(text)?;
    Some((name, rest))
}

fn label_before(bytes: &[u8]) -> Option<(Label, &[u8])>
    ensures { (says : List ℕ → List ℕ → Option Note) → behind_text is_label says bytes.now ≡ option_and_then (λ parts. says parts.0 parts.1.now) result }
{
    let (text, rest) = text_before(bytes)?;
    let label = Label::read(text)?;
    Some((label, rest))
}

fn receiver_before(bytes: &[u8]) -> Option<(To, &[u8])>
    ensures { (fields : List ℕ) → receiver_of fields bytes.now ≡ option_and_then (λ parts. sent_to fields parts.0 parts.1.now) result }
{
    let [kind, rest @ ..] = bytes else {
        return None;
    };
    if *kind == 0 {
        let Some((name, rest)) = name_before(rest) else {
            return None;
        };
        Some((To::Point { name }, rest))
    } else if *kind == 1 {
        let Some((name, rest)) = label_before(rest) else {
            return None;
        };
        Some((To::Group { name }, rest))
    } else {
        None
    }
}

// A name, a package and a version of it in front of bytes that make `count` with the latter two. The bytes begin at the package.
fn point_before(bytes: &[u8], count: usize) -> Option<(ServerName, (PackageId, Version), &[u8])>
    requires { 12 ≤ count }
    ensures says { (note : List ℕ → List ℕ → List ℕ → ℕ → Note) → of_point count note bytes.now ≡ option_map (λ parts. note parts.0 parts.2.now parts.1.0 parts.1.1) result }
    ensures rest { IfSome result (λ parts. length parts.2.now ≡ count) }
{
    let Some((name, rest)) = name_before(bytes) else {
        return None;
    };
    if rest.len() != count {
        return None;
    }
    let content = content_before(rest)?;
    Some((name, content, rest))
}

fn topology_of(fields: &[u8]) -> Option<Note>
    ensures { result ≡ read_topology fields.now }
{
    if fields.len() != 48 {
        return None;
    }
    Some(Note::Topology {
        number: number_at_4(fields, 0),
        size: number_at_4(fields, 4),
        hash: digest_at(fields, 8),
        minute: number_at_8(fields, 40),
    })
}

// The package and the version stand in front of the receiver, the minute behind it.
fn sent_to_of(fields: &[u8], to: To, rest: &[u8]) -> Option<Note>
    requires { 12 ≤ length fields.now }
    ensures { result ≡ sent_to fields.now to rest.now }
{
    if rest.len() != 8 {
        return None;
    }
    let (package, version) = content_before(fields)?;
    Some(Note::Sent {
        package,
        version,
        to,
        minute: number_at_8(rest, 0),
    })
}

fn sent_of(fields: &[u8]) -> Option<Note>
    ensures { result ≡ read_sent fields.now }
{
    if fields.len() < 12 {
        return None;
    }
    let Some((to, rest)) = receiver_before(&fields[12..]) else {
        return None;
    };
    sent_to_of(fields, to, rest)
}

fn installed_of(fields: &[u8]) -> Option<Note>
    ensures { result ≡ of_point 12 (λ point bytes. Installed point) fields.now }
{
    let Some((point, (package, version), _)) = point_before(fields, 12) else {
        return None;
    };
    Some(Note::Installed {
        point,
        package,
        version,
    })
}

fn tried_of(fields: &[u8]) -> Option<Note>
    ensures { result ≡ of_point 20 (λ point bytes id version. Tried point id version (number_8 12 bytes)) fields.now }
{
    let Some((point, (package, version), rest)) = point_before(fields, 20) else {
        return None;
    };
    Some(Note::Tried {
        point,
        package,
        version,
        due: number_at_8(rest, 12),
    })
}

fn leaving_of(fields: &[u8]) -> Option<Note>
    ensures { result ≡ of_point 12 (λ point bytes. Leaving point) fields.now }
{
    let Some((point, (package, version), _)) = point_before(fields, 12) else {
        return None;
    };
    Some(Note::Leaving {
        point,
        package,
        version,
    })
}

fn gone_of(fields: &[u8]) -> Option<Note>
    ensures { result ≡ of_point 12 (λ point bytes. Gone point) fields.now }
{
    let Some((point, (package, version), _)) = point_before(fields, 12) else {
        return None;
    };
    Some(Note::Gone {
        point,
        package,
        version,
    })
}

fn deleted_of(fields: &[u8]) -> Option<Note>
    ensures { result ≡ content_of 12 Deleted fields.now }
{
    if fields.len() != 12 {
        return None;
    }
    let (package, version) = content_before(fields)?;
    Some(Note::Deleted { package, version })
}

fn state_of(name: ServerName, bytes: &[u8]) -> Option<Note>
    ensures { result ≡ peer_state name bytes.now }
{
    if bytes.len() != 6 || bytes[0] > 1 {
        return None;
    }
    Some(Note::PeerState {
        name,
        low: bytes[0] == 1,
        load: bytes[1],
        queue: number_at_2(bytes, 2),
        used: number_at_2(bytes, 4),
    })
}

fn peer_state_of(fields: &[u8]) -> Option<Note>
    ensures { result ≡ behind_text is_folded_name peer_state fields.now }
{
    let Some((name, rest)) = name_before(fields) else {
        return None;
    };
    state_of(name, rest)
}

fn cached_of(fields: &[u8]) -> Option<Note>
    ensures { result ≡ of_point 44 (λ name bytes id version. Cached name id version (hash_at 12 bytes)) fields.now }
{
    let Some((name, (package, version), rest)) = point_before(fields, 44) else {
        return None;
    };
    Some(Note::Cached {
        name,
        package,
        version,
        hash: digest_at(rest, 12),
    })
}

fn note_of(bytes: &[u8]) -> Option<Note>
    ensures { result ≡ read_note bytes.now }
{
    let [kind, fields @ ..] = bytes else {
        return None;
    };
    match *kind {
        1 => topology_of(fields),
        2 => sent_of(fields),
        3 => installed_of(fields),
        4 => tried_of(fields),
        5 => leaving_of(fields),
        6 => gone_of(fields),
        7 => deleted_of(fields),
        8 => peer_state_of(fields),
        9 => cached_of(fields),
        _ => None,
    }
}

impl Note {
    /// The note that a record's bytes say. None exactly where they are off the grammar.
    pub fn decode(bytes: &[u8]) -> Option<Note>
        ensures exact { result ≡ read_note bytes.now }
        ensures found { IfSome result (λ note. IsRecord note bytes.now) }
        ensures only { (note : Note) → IsRecord note bytes.now → result ≡ Some note }
    {
        note_of(bytes)
    }
}
