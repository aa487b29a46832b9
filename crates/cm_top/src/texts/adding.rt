//! The texts of `add` and `update`.
ghost use Rattle.std.specs.Prelude.{◌≡◌, ◌++◌, OnOk};
ghost use Rattle.cm_top.specs.Texts.{reply_text};
ghost use Rattle.cm_site.specs.declared.reply.Reply.TheVariants.{Added, Changed};

use crate::say::say;
use cm_base::{Hash, PackageId, Version};
use cm_tree::FilePath;
use std::alloc::{AllocError, Global};

pub(crate) fn added(
    alloc: Global,
    out: &mut Vec<u8>,
    key: (PackageId, Version),
    files: u32,
    bytes: u64,
) -> Result<(), AllocError>
    ensures { OnOk result (out.new.items ≡ out.old.items ++ reply_text (Added key.0 key.1 files bytes)) }
{
    let (package, version) = key;
    let version = version.number().to_string(alloc)?;
    let files = files.to_string(alloc)?;
    let bytes = bytes.to_string(alloc)?;
    say(
        out,
        &[
            b"added",
            package.as_bytes(),
            version.as_bytes(),
            b"files",
            files.as_bytes(),
            b"bytes",
            bytes.as_bytes(),
        ],
    )
}

/// The line of a file that had one hash and size at the first reading, and others at the second.
pub(crate) fn changed(
    alloc: Global,
    out: &mut Vec<u8>,
    path: &FilePath,
    first: (Hash, u32),
    second: (Hash, u32),
) -> Result<(), AllocError>
    ensures { OnOk result (out.new.items ≡ out.old.items ++ reply_text (Changed path.now first.0 first.1 second.0 second.1)) }
{
    let mut first_digits = [0; 64];
    first.0.write(&mut first_digits);
    let first_size = first.1.to_string(alloc)?;
    let mut second_digits = [0; 64];
    second.0.write(&mut second_digits);
    let second_size = second.1.to_string(alloc)?;
    say(
        out,
        &[
            b"changed",
            path.as_bytes(),
            &first_digits,
            first_size.as_bytes(),
            &second_digits,
            second_size.as_bytes(),
        ],
    )
}
