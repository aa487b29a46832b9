//! All versions of a library are validated.
use cm_check::{CheckFault, validate};
use cm_disk::Disk;
use cm_library::{Library, VersionRow};
use std::alloc::Global;

/// How many versions were looked at, and how many files are amiss in them.
#[derive(Clone, Copy)]
pub(crate) struct Validated {
    pub(crate) versions: u64,
    pub(crate) findings: u64,
}

// How many files of a version are amiss.
fn findings_of<D: Disk + Drop>(
    alloc: Global,
    library: &mut Library<D>,
    row: &VersionRow,
) -> Result<u64, CheckFault> {
    match library.settle() {
        Ok(_) => {}
        Err(_) => return Err(CheckFault::Disk),
    }
    match validate(alloc, library, row.package, row.version) {
        Ok(list) => Ok(list.len() as u64),
        Err(fault) => Err(fault),
    }
}

/// Looks at each version of a library.
pub(crate) fn validate_all<D: Disk + Drop>(
    alloc: Global,
    library: &mut Library<D>,
) -> Result<Validated, CheckFault> {
    let rows = match library.versions().to_vec(alloc) {
        Ok(rows) => rows,
        Err(_) => return Err(CheckFault::Memory),
    };
    let mut findings: u64 = 0;
    for row in &rows {
        let found = findings_of(alloc, library, row)?;
        findings = findings.saturating_add(found);
    }
    Ok(Validated {
        versions: rows.len() as u64,
        findings,
    })
}
