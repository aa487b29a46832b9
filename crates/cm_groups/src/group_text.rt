//! A group, as a text describes it.

use crate::{Fallback, Options};
use cm_base::{Label, List, ServerName};

/// A group by names. A boundary or point may be named twice.
#[derive(Drop)]
pub struct GroupText {
    pub name: Label,
    pub options: Options,
    /// The names of its boundaries.
    pub boundaries: List<Label>,
    pub points: List<ServerName>,
    /// The names of groups to which its clients fall back.
    pub relations: List<(Label, Fallback)>,
}
