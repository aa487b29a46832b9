//! Why words are refused.

/// Why the words of the command line are refused. Values are numbered from 1.
#[derive(Clone, Copy, Debug, PartialEq, Eq)]
pub enum WordsFault {
    /// There is no word.
    NoCommand,
    /// The first word is no command.
    UnknownCommand,
    /// This value is off its form.
    BadValue { value: u64 },
    /// This value is absent.
    MissingWord { value: u64 },
    /// A word is no option of the command, or one value too many.
    ExtraWord,
    /// There was no memory for what the words say.
    Memory,
}
