//! The rules by their numbers, and how many entries there may be. What else is wrong with a boundary, rules 2 to 5, cm_net numbers.

pub(crate) const BAD_ADDRESS: u8 = 1;

pub(crate) const SAME_NAME: u8 = 6;

pub(crate) const NO_SUCH_GROUP: u8 = 7;

pub(crate) const NO_SUCH_BOUNDARY: u8 = 8;

pub(crate) const SELF_RELATION: u8 = 9;

pub(crate) const SAME_RELATION: u8 = 10;

pub(crate) const TOO_LONG_FALLBACK: u8 = 11;

pub(crate) const NO_SUCH_POINT: u8 = 12;

pub(crate) const PULL_FROM_ITSELF: u8 = 13;

pub(crate) const NO_PULL_SOURCE: u8 = 14;

pub(crate) const TOO_MANY: u8 = 15;

pub(crate) const BAD_NAME: u8 = 16;

pub(crate) const MOST_RELATIONS: usize = 64;

pub(crate) const MOST_MINUTES: u16 = 10_000;

pub(crate) const MOST_PRIORITY: u16 = 255;

pub(crate) const MOST_CONNECTIONS: u16 = 65_535;

pub(crate) const MOST_BOUNDARIES: usize = 2000;

pub(crate) const MOST_GROUPS: usize = 500;

pub(crate) const MOST_POINTS: usize = 64;

pub(crate) const MOST_POINT_GROUPS: usize = 64;

pub(crate) const MOST_PEERS: usize = 5000;
