//! Why a site is not opened.
use cm_base::{Place, ServerName};

/// Why a site is not opened: the first cause, in the order of its bays.
#[derive(Clone, Copy)]
pub enum SiteFault {
    /// The bay holds no library, or no records.
    NoLibrary {
        bay: ServerName,
    },
    /// The bay holds bytes that are neither, at this place from this byte on.
    Unreadable {
        bay: ServerName,
        place: Place,
        at: u64,
    },
    /// A point of the topology has no bay of its name. All bays were opened.
    NoBayFor {
        name: ServerName,
    },
    /// The disk of that bay failed.
    Disk {
        bay: ServerName,
    },
    /// There was no memory.
    Memory,
}
