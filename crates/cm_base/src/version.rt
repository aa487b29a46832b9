//! The version of a package.
ghost use Rattle.std.specs.Prelude.{◌≡◌, ◌≤◌};
ghost use Rattle.std.specs.Option.{SomeIff};

use std::marker::Model;

/// The version of a package: a number from 1 to 4,294,967,295. Contracts see the number.
#[derive(Clone, Copy, Debug, PartialEq, Eq, PartialOrd, Ord)]
pub struct Version {
    number: u32,
}

impl Model for Version {
    ghost use Rattle.std.specs.Prelude.{◌≤◌, ℕ, refl};

    ghost Value = { ℕ };

    ghost view = { λ version. version.number };

    ghost invariant = { λ version. 1 ≤ version.number };

    ghost inverse = { λ number. record { number = number } };

    ghost inverse_ok = { λ version h. refl };
}

impl Version {
    /// The version of that number. None exactly where the number is 0.
    pub fn new(number: u32) -> Option<Version>
        ensures { SomeIff result (1 ≤ number) number }
    {
        if number == 0 {
            return None;
        }
        Some(Version { number })
    }

    /// The number.
    pub fn number(self) -> u32
        ensures value { result ≡ self }
        ensures some { 1 ≤ result }
    {
        self.number
    }
}
