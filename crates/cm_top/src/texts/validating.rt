//! The text of `validate`.
ghost use Rattle.std.specs.Prelude.{◌≡◌, ◌++◌, OnOk};
ghost use Rattle.std.specs.List.{flat_map};
ghost use Rattle.cm_top.specs.Texts.{finding_line, reply_text};
ghost use Rattle.cm_site.specs.declared.reply.Reply.TheVariants.{Findings};

use crate::say::say;
use cm_check::{Finding, FindingKind};
use std::alloc::{AllocError, Global};

fn finding_in(out: &mut Vec<u8>, finding: &Finding) -> Result<(), AllocError>
    ensures { OnOk result (out.new.items ≡ out.old.items ++ finding_line finding.now) }
{
    match &finding.kind {
        FindingKind::Missing => say(out, &[b"missing", finding.path.as_bytes()]),
        FindingKind::Differs { named, got, .. } => {
            let mut named_digits = [0; 64];
            named.write(&mut named_digits);
            let mut got_digits = [0; 64];
            got.write(&mut got_digits);
            say(
                out,
                &[
                    b"differs",
                    finding.path.as_bytes(),
                    &named_digits,
                    &got_digits,
                ],
            )
        }
    }
}

fn finding_lines(out: &mut Vec<u8>, list: &[Finding]) -> Result<(), AllocError>
    ensures { OnOk result (out.new.items ≡ out.old.items ++ flat_map finding_line list.now) }
{
    for finding in list {
        finding_in(out, finding)?;
    }
    Ok(())
}

pub(crate) fn findings_in(
    alloc: Global,
    out: &mut Vec<u8>,
    files: u32,
    list: &[Finding],
) -> Result<(), AllocError>
    ensures { OnOk result (out.new.items ≡ out.old.items ++ reply_text (Findings files list.now)) }
{
    if list.is_empty() {
        let files = files.to_string(alloc)?;
        return say(out, &[b"valid", files.as_bytes()]);
    }
    finding_lines(out, list)
}
