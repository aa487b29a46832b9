//! What is wrong with the text of a topology.

/// What is wrong with the text of a topology. Parts: 0 the code, 1 boundaries, 2 groups, 3 relations, 4 points, 5 point groups,
/// 6 peers, 7 the default points. `entry` counts from 0 in its part; for a relation it is the number of its group, for a source
/// that of its point, and 0 for parts 0 and 7 and for a part that is no array.
#[derive(Clone, Copy, Debug, PartialEq, Eq)]
pub enum TopoFault {
    /// The text is no TOML.
    NotToml,
    /// A value is missing, or of another kind.
    WrongShape { part: u8, entry: u16 },
    /// A value breaks the rule of this number: 1 no address, 2 no number of bits, 3 the end of a range before its begin, 4 a bit
    /// behind the first ones, 5 ends of two families, 6 a name of the same part again, 7 no such group, 8 no such boundary, 9 a
    /// relation to its own group, 10 a second relation to a group, 11 no minutes, 12 no such point, 13 a source that is the point
    /// itself, 14 no source, 15 too many entries, 16 a name, code, priority or number of connections off its form.
    Rule { rule: u8, part: u8, entry: u16 },
    /// There was no memory.
    Memory,
}
