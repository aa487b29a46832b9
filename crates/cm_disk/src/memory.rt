//! A disk in memory.
ghost use Rattle.std.specs.Prelude.{◌≡◌, List, ℕ};
ghost use Rattle.cm_disk.specs.Stands.{stand_after, files_after, IsSmall};
ghost use Rattle.cm_disk.specs.Rows.{InRow};
ghost use Rattle.cm_disk.specs.Slots.{stand_in};
ghost use Rattle.cm_disk.specs.SlotsLaws.{same_prop};

use crate::calls::{Call, Slot};
use crate::read_ahead::ReadAhead;
use cm_base::Place;
use std::alloc::Global;
use std::collections::BTreeMap;

/// A disk in memory, with a record of all calls that changed something.
#[derive(Drop)]
pub struct MemDisk {
    pub(crate) alloc: Global,
    pub(crate) slots: BTreeMap<Place, Slot>,
    pub(crate) calls: Vec<Call>,
    pub(crate) fail: Vec<u64>,
    pub(crate) stop: Option<u64>,
    pub(crate) number: u64,
    pub(crate) faults: u64,
    pub(crate) short: u64,
    pub(crate) ahead: ReadAhead,
    ghost same: { (place : List ℕ) → stand_in slots place ≡ stand_after calls.items place } by { same_prop slots calls.items },
    ghost small: { (place : List ℕ) → IsSmall (stand_after calls.items place) },
    ghost row: { InRow (files_after calls.items) ahead.places.items },
}
