//! What the tests share.
use cm_disk::{Disk, DiskFault};
use cm_records::Records;
use cm_topo::read_topology;
use std::alloc::Global;

/// Topologies with one point and with two.
pub(crate) const ONE: &str = r#"
code = "PS1"
[[point]]
name = "dp1"
address = "10.1.3.10"
"#;

pub(crate) const TWO: &str = r#"
code = "PS1"
[[point]]
name = "dp1"
address = "10.1.3.10"
[[point]]
name = "dp2"
address = "10.1.3.11"
"#;

/// New records on a disk, opened; or the disk.
pub(crate) fn made<D: Disk>(alloc: Global, disk: D) -> Result<Records<D>, D> {
    let mut disk = disk;
    if Records::init(&mut disk).is_err() {
        return Err(disk);
    }
    match Records::open(alloc, disk) {
        Ok(records) => Ok(records),
        Err((disk, _)) => Err(disk),
    }
}

/// Settles, and replaces the topology by that of a text. None where the text says none, or settling fails.
pub(crate) fn replaced<D: Disk>(
    alloc: Global,
    records: &mut Records<D>,
    text: &str,
) -> Option<Result<(), DiskFault>> {
    let text = text.as_bytes();
    let Ok(topology) = read_topology(alloc, text) else {
        return None;
    };
    let Ok(_) = records.settle() else {
        return None;
    };
    if text.len() > 1000 || records.number() > 1000 || records.end() > 1_000_000 {
        return None;
    }
    Some(records.replace(text, topology, 1_234_567))
}

/// Whether the records have a topology of that number with so many points, 0 where they have none.
pub(crate) fn has<D: Disk>(records: &Records<D>, number: u32, points: usize) -> bool {
    let found = match records.topology() {
        Some(topology) => topology.points.items().len(),
        None => 0,
    };
    records.number() == number && found == points
}

/// Whether a disk opens to records with a topology of that number with so many points.
pub(crate) fn opens_to<D: Disk + Drop>(alloc: Global, disk: D, number: u32, points: usize) -> bool {
    match Records::open(alloc, disk) {
        Ok(records) => has(&records, number, points),
        Err(_) => false,
    }
}
