//! A topology whose record is to be added.
ghost use Rattle.std.specs.Prelude.{◌≡◌};
ghost use Rattle.cm_register.specs.Opens.{noted};
ghost use Rattle.cm_records.specs.Kept.{note_in, noted_in};

use cm_base::Hash;
use cm_notes::Note;
use cm_register::Kept;
use cm_topo::Topology;

/// A topology, and what its record says of its text.
#[derive(Drop)]
pub(crate) struct Pending {
    pub number: u32,
    pub size: u32,
    pub hash: Hash,
    pub minute: u64,
    pub topology: Topology,
}

impl Pending {
    /// Its record.
    pub(crate) fn note(&self) -> Note
        ensures { result ≡ note_in self.now }
    {
        Note::Topology {
            number: self.number,
            size: self.size,
            hash: self.hash,
            minute: self.minute,
        }
    }

    /// Takes it in memory.
    pub(crate) fn make(self, kept: &mut Kept)
        ensures { kept.new ≡ noted (noted_in self) kept.old }
    {
        let Pending {
            number,
            size: _,
            hash: _,
            minute: _,
            topology,
        } = self;
        kept.take(number, topology);
    }
}
