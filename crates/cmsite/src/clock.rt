//! The minute.
ghost use Rattle.std.specs.Prelude.{◌<◌, ◌^◌};

use std::rt::Clock;
use std::time::{SystemTime, UNIX_EPOCH};

// The greatest minute that commands take.
const LAST_MINUTE: u64 = (1 << 40) - 1;

/// Whole minutes since 1970-01-01 UTC by the host's clock, at most 2^40 - 1. A clock that is not there, or stands before
/// 1970, counts as 0.
pub(crate) fn minute(rt: &impl Clock) -> u64
    ensures { result < 2 ^ 40 }
{
    let Ok(now) = SystemTime::now(rt) else {
        return 0;
    };
    match now.duration_since(UNIX_EPOCH) {
        Ok(since) => (since.as_secs() / 60).min(LAST_MINUTE),
        Err(_) => 0,
    }
}
