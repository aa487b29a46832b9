//! What is kept of a site in memory.
ghost use Rattle.std.specs.Prelude.{◌≡◌, ℕ, Some, None, option_map};
ghost use Rattle.cm_base.specs.declared.hash.Hash.{Hash as a_hash};
ghost use Rattle.cm_notes.specs.declared.note.Note.TheVariants as note;
ghost use Rattle.cm_register.specs.AfterNote.{after_note};
ghost use Rattle.cm_register.specs.Kept.{under_alone};
ghost use Rattle.cm_register.specs.Records.{no_records};

use cm_topo::Topology;
use std::marker::Model;

/// What is kept of a site in memory: its topology, and the greatest number that a topology had. Contracts see all that the records say.
#[derive(Drop)]
pub struct Kept {
    topology: Option<Topology>,
    number: u32,
}

impl Model for Kept {
    ghost use Rattle.cm_register.specs.Records.{Records};
    ghost use Rattle.cm_register.specs.Kept.{under_alone};

    ghost Value = { Records };

    ghost view = { λ kept. under_alone kept.topology kept.number };
}

impl Kept {
    /// Nothing yet.
    pub fn new() -> Kept
        ensures { result ≡ no_records }
    {
        Kept {
            topology: None,
            number: 0,
        }
    }

    /// The topology. None before the first one.
    pub fn topology(&self) -> Option<&Topology>
        ensures { option_map (λ topology. topology.now) result ≡ self.now.topology }
    {
        self.topology.as_ref()
    }

    /// The greatest number of a topology, 0 before the first one.
    pub fn number(&self) -> u32
        ensures { result ≡ self.now.number }
    {
        self.number
    }

    /// Nothing but topologies was taken, which is said here alone.
    pub fn show_alone(&self)
        ensures { self.now ≡ under_alone self.now.topology self.now.number }
    {
        let _ = &self.topology;
    }

    /// Takes the topology of a record, instead of the one before.
    pub fn take(&mut self, number: u32, topology: Topology)
        ensures { (size : ℕ) (hash : a_hash) (minute : ℕ) → self.new ≡ after_note (note.Topology number size hash minute) (Some topology) self.old }
    {
        self.number = self.number.max(number);
        self.topology = Some(topology);
    }
}
