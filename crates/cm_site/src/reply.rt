//! What a command answers.
use cm_base::{Hash, List, PackageId, Place, ServerName, Version};
use cm_check::Finding;
use cm_library::{JobRow, VersionRow};
use cm_tree::FilePath;

/// Why a command is refused.
#[derive(Clone, Copy)]
pub enum Refusal {
    /// 1: the bay's library has no such version.
    NoVersion,
    /// 2: the site's library has opened a version of the package, this one last.
    PackageThere { last: Version },
    /// 3: the site's library has never opened a version of the package.
    NoPackage,
    /// 4: the job is not unfinished in the bay's library.
    NoJob,
    /// 7: the library has as many versions and unfinished jobs as it may.
    TooManyVersions,
    /// 8: the library's entries would pass their limit.
    TooManyEntries,
    /// 9: the library has as many unfinished jobs as it may.
    TooManyJobs,
    /// 10: the named bay is not handed in.
    NoBay { name: ServerName },
    /// 14: targets or sent rows would pass 400,000.
    TooManyTargets,
    /// 19: this path of the folder, from 0, is off the grammar of paths.
    BadPath { entry: u32 },
    /// 20: this path of the folder, from 0, equals an earlier one but for the case of letters.
    SamePath { entry: u32 },
    /// 21: the folder has too many files.
    TooManyFiles,
    /// 22: this file of the folder, from 0, is too long.
    FileTooLong { entry: u32 },
    /// 23: the text of a topology is no TOML.
    NotToml,
    /// 24: a value of it is missing, or of another kind.
    WrongShape { part: u8, entry: u16 },
    /// 25: a value of it breaks the rule of this number.
    TopologyRule { rule: u8, part: u8, entry: u16 },
    /// 26: this point has a target, and the topology does not have it.
    PointInUse { point: ServerName },
    /// 27: it has more than 4,194,304 bytes.
    InputTooLong,
    /// 28: the greatest version that was opened of the package is the greatest that there is.
    VersionsSpent,
    /// 30: the library's job numbers or the numbers of topologies are used up, or a log has no room.
    Spent,
}

/// What a command answers.
#[derive(Drop)]
pub enum Reply {
    /// In so many bays a library or the records were made.
    Made {
        count: u32,
    },
    /// The version was added, with so many files of so many bytes together.
    Added {
        package: PackageId,
        version: Version,
        files: u32,
        bytes: u64,
    },
    /// The job was given up.
    Dropped,
    /// A file had other bytes when it was read again, up to the size that it had first.
    Changed {
        path: FilePath,
        first: Hash,
        first_size: u32,
        second: Hash,
        second_size: u32,
    },
    /// What the topology has, the default group not counted, and how many targets were made for points that joined a group.
    Topology {
        boundaries: u32,
        groups: u32,
        points: u32,
        peers: u32,
        joined: u32,
    },
    /// The versions and the unfinished jobs of a library.
    Versions {
        versions: List<VersionRow>,
        jobs: List<JobRow>,
    },
    /// What is amiss with the stored files of a version of so many files, in the order of its manifest.
    Findings {
        files: u32,
        list: List<Finding>,
    },
    /// The places that a purge would remove, in byte order.
    Loose {
        places: List<Place>,
    },
    /// So many files and manifests were removed.
    Purged {
        files: u32,
        manifests: u32,
    },
    /// The command is refused.
    Refused {
        refusal: Refusal,
    },
    /// The folder or the input failed.
    Source,
    /// The disk of that bay failed.
    Disk {
        bay: ServerName,
    },
    /// There was no memory.
    Memory,
    /// The bay holds no library, or no records.
    NoLibrary {
        bay: ServerName,
    },
    /// A point of the topology has no bay of its name.
    NoBayFor {
        name: ServerName,
    },
    /// The bay holds bytes that are neither, at this place from this byte on.
    Unreadable {
        bay: ServerName,
        place: Place,
        at: u64,
    },
}
