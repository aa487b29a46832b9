//! The gate and the length before a body.
ghost use Rattle.std.specs.Prelude.{◌≡◌, ◌≤◌, length};
ghost use Rattle.cm_log.specs.Logs.{prefix_of};

/// What the five bytes from a gate on say: the gate is not open, the file ends there, the length is above 65,536, or a
/// body of that length follows.
#[derive(Clone, Copy, Debug, PartialEq, Eq)]
pub enum Prefix {
    Shut,
    Cut,
    TooLong,
    Body { len: u32 },
}

pub(crate) fn read_prefix(bytes: &[u8]) -> Prefix
    requires { length bytes.now ≤ 5 }
    ensures { result ≡ prefix_of bytes.now }
{
    match bytes {
        [] => Prefix::Cut,
        [gate, ..] if *gate != 1 => Prefix::Shut,
        [_, a, b, c, d, ..] => {
            let len = u32::from_le_bytes([*a, *b, *c, *d]);
            if len > 65536 {
                Prefix::TooLong
            } else {
                Prefix::Body { len }
            }
        }
        _ => Prefix::Cut,
    }
}
