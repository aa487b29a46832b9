//! What a turnstile asks of its value, and of a work on it.
ghost use Rattle.std.specs.Prelude.{◌≡◌, ◌≤◌, ◌^◌, List, length};
ghost use Rattle.cm_turn.specs.Lists.{Adds};

/// A value that stands for a list, which it keeps: its Start, then entries.
///
/// Whatever else is to hold of the value each time that a work gets it is an invariant of its type.
pub trait Told {
    /// What the value is when it is handed to the turnstile, as far as others are to know it.
    type Start;

    /// What one turn adds.
    type Entry;

    /// Its Start.
    ghost start: { Self → Self.Start };

    /// Its entries, the oldest first.
    ghost told: { Self → List Self.Entry };

    /// How many entries the list has, at most 2^62. Takes no memory.
    fn bounded(&self) -> u64
        ensures count { result ≡ length (told self.now) }
        ensures bound { result ≤ 2 ^ 62 };
}

/// A work on the value. It keeps the Start and the entries, and adds at most one entry.
pub trait Work<T: Told> {
    /// What the work tells its caller.
    type Answer;

    /// What the work gives: a test of the work, the value before, the value after and the answer.
    ghost gives: { Self → T → T → Self.Answer → Type 0 };

    /// Does the work.
    fn work(self, value: &mut T) -> Self::Answer
        ensures adds { Adds T.start T.told value.old value.new }
        ensures gives { gives self value.old value.new result };
}
