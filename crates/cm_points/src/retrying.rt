//! When a job is tried again.
ghost use Rattle.std.specs.Prelude.{◌≡◌, ◌+◌, ◌<◌, ◌^◌, ◌==◌, Some, None, if◌then◌else◌};

/// How often a job is tried.
const MOST_TRIES: u8 = 100;

/// How many minutes lie between two tries.
const PAUSE: u64 = 30;

/// The minute at which a job is tried again that was tried so often. None exactly where it was tried 100 times.
pub fn retry(minute: u64, tries: u8) -> Option<u64>
    requires { minute < 2 ^ 40 }
    ensures { result ≡ (if tries == 100 then None else Some (minute + 30)) }
{
    if tries == MOST_TRIES {
        return None;
    }
    Some(minute + PAUSE)
}
