//! A disk under its name.
use cm_base::ServerName;

/// A disk under its name: the site's, the records' or a point's.
#[derive(Drop)]
pub struct Bay<D> {
    pub name: ServerName,
    pub disk: D,
}
