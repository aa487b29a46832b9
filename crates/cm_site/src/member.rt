//! What is open of a bay.
use cm_base::ServerName;
use cm_disk::Disk;
use cm_library::Library;
use cm_records::Records;

/// The library of a bay, or the records.
#[derive(Drop)]
pub enum Hold<D: Disk> {
    Library(Library<D>),
    Records(Records<D>),
}

/// A bay that is open.
#[derive(Drop)]
pub struct Member<D: Disk> {
    pub name: ServerName,
    pub hold: Hold<D>,
}
