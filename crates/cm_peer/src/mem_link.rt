//! What a link in memory keeps.
use crate::{Answer, SourceRow};
use cm_base::ServerName;

/// Sources by name, each with its answer to every want. The calls with listed numbers fail, and so does one that finds no
/// memory to note which source it was asked for. From then on it does not tell which it was asked.
#[derive(Drop)]
pub struct MemLink {
    pub(crate) answers: Vec<(ServerName, Answer)>,
    pub(crate) asked: Option<Vec<SourceRow>>,
    pub(crate) fail: Vec<u64>,
    pub(crate) number: u64,
    pub(crate) faults: u64,
}
