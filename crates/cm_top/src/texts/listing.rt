//! The text of `list`.
ghost use Rattle.std.specs.Prelude.{◌≡◌, ◌++◌, OnOk};
ghost use Rattle.std.specs.List.{flat_map};
ghost use Rattle.cm_top.specs.Texts.{version_line, job_line, reply_text};
ghost use Rattle.cm_site.specs.declared.reply.Reply.TheVariants.{Versions};

use crate::say::say;
use cm_library::{JobRow, VersionRow};
use std::alloc::{AllocError, Global};

fn version(alloc: Global, out: &mut Vec<u8>, row: &VersionRow) -> Result<(), AllocError>
    ensures { OnOk result (out.new.items ≡ out.old.items ++ version_line row.now) }
{
    let number = row.version.number().to_string(alloc)?;
    let entries = row.entries.to_string(alloc)?;
    let bytes = row.bytes.to_string(alloc)?;
    say(
        out,
        &[
            row.package.as_bytes(),
            number.as_bytes(),
            b"done",
            entries.as_bytes(),
            bytes.as_bytes(),
        ],
    )
}

fn job(alloc: Global, out: &mut Vec<u8>, row: &JobRow) -> Result<(), AllocError>
    ensures { OnOk result (out.new.items ≡ out.old.items ++ job_line row.now) }
{
    let number = row.version.number().to_string(alloc)?;
    let job = row.job.number().to_string(alloc)?;
    let entries = row.entries.to_string(alloc)?;
    let bytes = row.bytes.to_string(alloc)?;
    say(
        out,
        &[
            row.package.as_bytes(),
            number.as_bytes(),
            b"job",
            job.as_bytes(),
            entries.as_bytes(),
            bytes.as_bytes(),
        ],
    )
}

fn version_lines(alloc: Global, out: &mut Vec<u8>, rows: &[VersionRow]) -> Result<(), AllocError>
    ensures { OnOk result (out.new.items ≡ out.old.items ++ flat_map version_line rows.now) }
{
    for row in rows {
        version(alloc, out, row)?;
    }
    Ok(())
}

fn job_lines(alloc: Global, out: &mut Vec<u8>, rows: &[JobRow]) -> Result<(), AllocError>
    ensures { OnOk result (out.new.items ≡ out.old.items ++ flat_map job_line rows.now) }
{
    for row in rows {
        job(alloc, out, row)?;
    }
    Ok(())
}

pub(crate) fn listed(
    alloc: Global,
    out: &mut Vec<u8>,
    versions: &[VersionRow],
    jobs: &[JobRow],
) -> Result<(), AllocError>
    ensures { OnOk result (out.new.items ≡ out.old.items ++ reply_text (Versions versions.now jobs.now)) }
{
    version_lines(alloc, out, versions)?;
    job_lines(alloc, out, jobs)
}
