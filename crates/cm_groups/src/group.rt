//! A group, with its names resolved.

use crate::{Fallback, Options};
use cm_base::{List, ServerName};
use cm_net::Boundary;

/// A group: its boundaries themselves, and its relations by the numbers of groups.
#[derive(Drop)]
pub struct Group {
    pub options: Options,
    pub boundaries: List<Boundary>,
    pub points: List<ServerName>,
    pub relations: List<(u16, Fallback)>,
}
