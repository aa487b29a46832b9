//! Bytes are read as a change.
ghost use Rattle.std.specs.Prelude.{◌≡◌, ◌+◌, ◌≤◌, length, IfSome};
ghost use Rattle.cm_pkglib.specs.Changes.{number_4, number_8, hash_at, job_at, version_at, package_at, read_opened, done, dropped, removed, read_change, IsRecord};
ghost use Rattle.cm_pkglib.specs.declared.change.Change.{Change};

use crate::Change;
use cm_base::{Hash, JobId, PackageId, Version};

fn number_at_4(bytes: &[u8], at: usize) -> u32
    requires { at + 4 ≤ length bytes.now }
    ensures { result ≡ number_4 at bytes.now }
{
    let mut four = [0; 4];
    four.copy_from_slice(&bytes[at..at + 4]);
    u32::from_le_bytes(four)
}

fn number_at_8(bytes: &[u8], at: usize) -> u64
    requires { at + 8 ≤ length bytes.now }
    ensures { result ≡ number_8 at bytes.now }
{
    let mut eight = [0; 8];
    eight.copy_from_slice(&bytes[at..at + 8]);
    u64::from_le_bytes(eight)
}

fn digest_at(bytes: &[u8], at: usize) -> Hash
    requires { at + 32 ≤ length bytes.now }
    ensures { result ≡ hash_at at bytes.now }
{
    let mut digest = [0; 32];
    digest.copy_from_slice(&bytes[at..at + 32]);
    Hash(digest)
}

fn job_of(bytes: &[u8], at: usize) -> Option<JobId>
    requires { at + 8 ≤ length bytes.now }
    ensures { result ≡ job_at at bytes.now }
{
    JobId::new(number_at_8(bytes, at))
}

fn version_of(bytes: &[u8], at: usize) -> Option<Version>
    requires { at + 4 ≤ length bytes.now }
    ensures { result ≡ version_at at bytes.now }
{
    Version::new(number_at_4(bytes, at))
}

#[tactic(auto, unfolding(crate::specs::Changes::package_at))]
fn package_of(bytes: &[u8], at: usize) -> Option<PackageId>
    requires { at + 8 ≤ length bytes.now }
    ensures { result ≡ package_at at bytes.now }
{
    PackageId::read(&bytes[at..at + 8])
}

fn opened_of(fields: &[u8]) -> Option<Change>
    requires { length fields.now ≡ 60 }
    ensures { result ≡ read_opened fields.now }
{
    match (
        job_of(fields, 0),
        package_of(fields, 8),
        version_of(fields, 16),
    ) {
        (Some(job), Some(package), Some(version)) => Some(Change::Opened {
            job,
            package,
            version,
            entries: number_at_4(fields, 20),
            size: number_at_4(fields, 24),
            hash: digest_at(fields, 28),
        }),
        _ => None,
    }
}

fn done_of(fields: &[u8]) -> Option<Change>
    requires { length fields.now ≡ 8 }
    ensures { result ≡ done (job_at 0 fields.now) }
{
    match job_of(fields, 0) {
        Some(job) => Some(Change::Done { job }),
        None => None,
    }
}

fn dropped_of(fields: &[u8]) -> Option<Change>
    requires { length fields.now ≡ 8 }
    ensures { result ≡ dropped (job_at 0 fields.now) }
{
    match job_of(fields, 0) {
        Some(job) => Some(Change::Dropped { job }),
        None => None,
    }
}

fn removed_of(fields: &[u8]) -> Option<Change>
    requires { length fields.now ≡ 12 }
    ensures { result ≡ removed (package_at 0 fields.now) (version_at 8 fields.now) }
{
    match (package_of(fields, 0), version_of(fields, 8)) {
        (Some(package), Some(version)) => Some(Change::Removed { package, version }),
        _ => None,
    }
}

fn change_of(bytes: &[u8]) -> Option<Change>
    ensures { result ≡ read_change bytes.now }
{
    let [kind, fields @ ..] = bytes else {
        return None;
    };
    if *kind == 1 && fields.len() == 60 {
        opened_of(fields)
    } else if *kind == 2 && fields.len() == 8 {
        done_of(fields)
    } else if *kind == 3 && fields.len() == 8 {
        dropped_of(fields)
    } else if *kind == 4 && fields.len() == 12 {
        removed_of(fields)
    } else {
        None
    }
}

impl Change {
    /// The change that a record's bytes say. None exactly where they are off the grammar.
    pub fn decode(bytes: &[u8]) -> Option<Change>
        ensures exact { result ≡ read_change bytes.now }
        ensures found { IfSome result (λ change. IsRecord change bytes.now) }
        ensures only { (change : Change) → IsRecord change bytes.now → result ≡ Some change }
    {
        change_of(bytes)
    }
}
