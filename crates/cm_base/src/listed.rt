//! Calls that are to fail, by their numbers.
ghost use Rattle.std.specs.Prelude.{◌≡◌};
ghost use Rattle.cm_base.specs.Listed.{is_listed};

/// Whether a number is listed.
pub fn is_among(fail: &[u64], number: u64) -> bool
    ensures { result ≡ is_listed fail.now number }
{
    fail.iter().any(|listed| *listed == number)
}
