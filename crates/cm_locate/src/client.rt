//! What is looked up once for a client.
use crate::Ask;
use cm_groups::{Groups, Marks};

/// A client that asks, among the groups.
#[derive(Drop)]
pub(crate) struct Client<'a> {
    pub(crate) groups: &'a Groups,
    pub(crate) ask: &'a Ask,
    /// Its current groups.
    pub(crate) current: Marks,
    /// Those of them that let a peer in the client's subnet serve.
    pub(crate) near: Marks,
    /// Those of them that let a peer in another subnet serve.
    pub(crate) far: Marks,
    /// The neighbours that it reaches.
    pub(crate) neighbours: Marks,
    /// The default group, where it reaches that.
    pub(crate) default_group: Marks,
    /// Whether a current group prefers points.
    pub(crate) prefers_points: bool,
}
