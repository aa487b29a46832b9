//! The head of a log's file, and which of the two logs is live.
ghost use Rattle.std.specs.Prelude.{◌≡◌, drop, slice_index};
ghost use Rattle.std.specs.Int.{from_le_bytes, w64};
ghost use Rattle.cm_log.specs.Heads.{head_of, is_ahead, if_readable, choice};

use crate::shelf::Side;

/// What a log's first ten bytes say; a byte that is not there counts as 0.
#[derive(Clone, Copy, Debug, PartialEq, Eq)]
pub struct Head {
    pub count: usize,
    pub live: u8,
    pub form: u8,
    pub generation: u64,
}

/// The live log, or the one that is refused and the place of its first bad byte.
#[derive(Clone, Copy, Debug, PartialEq, Eq)]
pub enum Choice {
    Chosen { side: Side },
    Refused { side: Side, at: u64 },
}

fn byte_or_zero(bytes: &[u8], i: usize) -> u8
    ensures { result ≡ slice_index bytes.now i }
{
    if i < bytes.len() { bytes[i] } else { 0 }
}

pub(crate) fn read_head(bytes: &[u8]) -> Head
    ensures { result ≡ head_of bytes.now }
{
    Head {
        count: bytes.len(),
        live: byte_or_zero(bytes, 0),
        form: byte_or_zero(bytes, 1),
        generation: generation(bytes),
    }
}

fn generation(bytes: &[u8]) -> u64
    ensures { result ≡ from_le_bytes w64 (drop 2 bytes.now) }
{
    u64::from_le_bytes([
        byte_or_zero(bytes, 2),
        byte_or_zero(bytes, 3),
        byte_or_zero(bytes, 4),
        byte_or_zero(bytes, 5),
        byte_or_zero(bytes, 6),
        byte_or_zero(bytes, 7),
        byte_or_zero(bytes, 8),
        byte_or_zero(bytes, 9),
    ])
}

fn goes_ahead(one: &Head, other: &Head) -> bool
    ensures { result ≡ is_ahead one.now other.now }
{
    one.live == 1 && (other.live != 1 || other.generation < one.generation)
}

fn chosen(side: Side, head: &Head) -> Choice
    ensures { result ≡ if_readable side head.now }
{
    if head.form != 1 {
        Choice::Refused { side, at: 1 }
    } else if head.count < 10 {
        Choice::Refused {
            side,
            at: head.count as u64,
        }
    } else {
        Choice::Chosen { side }
    }
}

pub(crate) fn choose(first: &Head, second: &Head) -> Choice
    ensures { result ≡ choice first.now second.now }
{
    if first.count == 0 {
        Choice::Refused {
            side: Side::First,
            at: 0,
        }
    } else if second.count == 0 {
        Choice::Refused {
            side: Side::Second,
            at: 0,
        }
    } else if goes_ahead(first, second) {
        chosen(Side::First, first)
    } else if goes_ahead(second, first) {
        chosen(Side::Second, second)
    } else {
        Choice::Refused {
            side: Side::First,
            at: 0,
        }
    }
}
