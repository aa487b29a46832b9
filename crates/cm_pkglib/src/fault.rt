//! Why a change is refused.
use cm_base::JobId;

/// Why a change of the rows is refused.
#[derive(Clone, Copy, Debug, PartialEq, Eq)]
pub enum RowFault {
    /// The job is not unfinished.
    NoJob,
    /// The version is not there.
    NoVersion,
    /// The version is there.
    VersionThere,
    /// That unfinished job has this package and version.
    JobThere { job: JobId },
    /// Versions and unfinished jobs are 8,192.
    TooManyVersions,
    /// The entries of versions and unfinished jobs would pass 400,000.
    TooManyEntries,
    /// 256 jobs are unfinished.
    TooManyJobs,
    /// The number is not that of the next job, or is 2^64 - 1.
    WrongJob,
}
