//! What is installed, the choice of a source, and tries.
use cm_base::{PackageId, ServerName, Version};
use cm_points::{Installed, PullSource, pull_choice, retry};
use std::test::Fail;

fn name(text: &str) -> Result<ServerName, Fail> {
    Ok(ServerName::read(text.as_bytes()).ok_or("name")?)
}

fn package(text: &str) -> Result<PackageId, Fail> {
    Ok(PackageId::read(text.as_bytes()).ok_or("package")?)
}

fn version(number: u32) -> Result<Version, Fail> {
    Ok(Version::new(number).ok_or("version")?)
}

#[test]
fn exactly_the_rows_are_installed(rt: HostRuntime) -> Result<(), Fail> {
    let rows = [
        (name("dp4")?, package("PS100002")?, version(1)?),
        (name("dp1")?, package("PS100001")?, version(2)?),
        (name("dp4")?, package("PS100001")?, version(1)?),
        (name("dp1")?, package("PS100001")?, version(2)?),
    ];
    let installed = Installed::build(rt.alloc(), &rows)?;
    for row in &rows {
        assert!(rt; installed.has(&row.0, row.1, row.2));
    }
    let absent = [
        (name("dp1")?, package("PS100001")?, version(1)?),
        (name("dp1")?, package("PS100002")?, version(1)?),
        (name("dp2")?, package("PS100001")?, version(2)?),
    ];
    for row in &absent {
        assert!(rt; !installed.has(&row.0, row.1, row.2));
    }
    Ok(())
}

#[test]
fn the_first_of_the_least_is_chosen(rt: HostRuntime) -> Result<(), Fail> {
    let rows = [("dp4", 2), ("dp3", 1), ("dp1", 1), ("dp1", 1), ("dp2", 0)];
    let mut sources = Vec::new(rt.alloc());
    for (point, priority) in rows {
        let point = name(point)?;
        sources.push(PullSource { point, priority })?;
    }
    assert_eq!(rt; sources.len(), 5);
    let tables = [
        ([true, true, true, true, true], Some(4)),
        ([true, true, true, true, false], Some(2)),
        ([true, true, false, true, false], Some(3)),
        ([true, true, false, false, false], Some(1)),
        ([true, false, false, false, false], Some(0)),
        ([false, false, false, false, false], None),
    ];
    for (usable, number) in tables {
        assert_eq!(rt; pull_choice(&sources, &usable), number);
    }
    Ok(())
}

#[test]
fn a_job_is_tried_a_hundred_times(rt: HostRuntime) {
    assert_eq!(rt; retry(1000, 1), Some(1030));
    assert_eq!(rt; retry(1000, 99), Some(1030));
    assert_eq!(rt; retry(1000, 100), None);
}
