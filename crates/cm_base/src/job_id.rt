//! The number of a job.
ghost use Rattle.std.specs.Prelude.{◌≡◌, ◌≤◌};
ghost use Rattle.std.specs.Option.{SomeIff};

use std::marker::Model;

/// The number of a job: from 1 to 2^64 - 1. Contracts see the number.
#[derive(Clone, Copy, Debug, PartialEq, Eq, PartialOrd, Ord)]
pub struct JobId {
    number: u64,
}

impl Model for JobId {
    ghost use Rattle.std.specs.Prelude.{◌≤◌, ℕ, refl};

    ghost Value = { ℕ };

    ghost view = { λ job. job.number };

    ghost invariant = { λ job. 1 ≤ job.number };

    ghost inverse = { λ number. record { number = number } };

    ghost inverse_ok = { λ job h. refl };
}

impl JobId {
    /// The job of that number. None exactly where the number is 0.
    pub fn new(number: u64) -> Option<JobId>
        ensures { SomeIff result (1 ≤ number) number }
    {
        if number == 0 {
            return None;
        }
        Some(JobId { number })
    }

    /// The number.
    pub fn number(self) -> u64
        ensures value { result ≡ self }
        ensures some { 1 ≤ result }
    {
        self.number
    }
}
