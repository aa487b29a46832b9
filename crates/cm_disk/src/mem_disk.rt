//! The calls of a disk in memory.
ghost use Rattle.std.specs.Prelude.{IfSome, ◌≡◌, ◌⊎◌, ◌+◌, ◌-◌, ◌≤◌, ◌==◌, ◌∷◌, ◌++◌, [], List, true, false, nat_le, Some, None, IfOk, OnOk, OnErr, IsTrue, IsSome, ℕ, if◌then◌else◌};
ghost use Rattle.std.specs.List.{list_any};
ghost use Rattle.std.specs.Str.{bytes_eq};
ghost use Rattle.std.specs.Ordering.{nat_cmp};
ghost use Rattle.std.specs.Cmp.Lexicographic.{slice_cmp};
ghost use Rattle.std.specs.BTreeMap.{get};
ghost use Rattle.cm_base.specs.Causes.{HasCause, Rose};
ghost use Rattle.std.specs.Option.{option_copied};
ghost use Rattle.cm_disk.specs.Disk.{is_above, IsNext};
ghost use Rattle.cm_disk.specs.Images.{IsLeft};
ghost use Rattle.cm_disk.specs.Stands.{worked};
ghost use Rattle.cm_disk.specs.Slots.{CanDo, stand_in, stand_of, is_listed};
ghost use Rattle.cm_disk.specs.Recorded.{calls_of, files_of, number_of, is_failing, faults_of, short_of, raised, FailsExactly, IsRecorded};

use crate::DiskFault;
use crate::calls::{Call, Slot, Work};
use crate::memory::MemDisk;
use crate::places::first_after;
use crate::read_ahead::ReadAhead;
use crate::slots::{absent_slot, kept_slot, work_on};
use cm_base::{Memory, Place};
use std::alloc::Global;
use std::collections::BTreeMap;

impl MemDisk {
    /// An empty disk, which fails at the device calls with these numbers, counted from 0. An Err is want of memory.
    pub fn new(alloc: Global, fail: Vec<u64>) -> Result<MemDisk, Memory>
        ensures nothing { IfOk result (λ disk. calls_of disk ≡ []) }
        ensures empty { IfOk result (λ disk. (q : List ℕ) → files_of disk q ≡ None) }
        ensures listed { IfOk result (λ disk. (number : ℕ) → is_failing disk number ≡ list_any (λ x. x == number) fail.items) }
        ensures fresh { IfOk result (λ disk. (number_of disk ≡ 0) × (faults_of disk ≡ 0) × (short_of disk ≡ 0)) }
    {
        Ok(MemDisk::made(alloc, fail, None))
    }

    /// An empty disk, which fails at the device call with this number, counted from 0, and at all after it. An Err is want of
    /// memory.
    pub fn stopping(alloc: Global, at: u64) -> Result<MemDisk, Memory>
        ensures nothing { IfOk result (λ disk. calls_of disk ≡ []) }
        ensures empty { IfOk result (λ disk. (q : List ℕ) → files_of disk q ≡ None) }
        ensures listed { IfOk result (λ disk. (number : ℕ) → is_failing disk number ≡ nat_le at number) }
        ensures fresh { IfOk result (λ disk. (number_of disk ≡ 0) × (faults_of disk ≡ 0) × (short_of disk ≡ 0)) }
    {
        Ok(MemDisk::made(alloc, Vec::new(alloc), Some(at)))
    }

    pub(crate) fn made(alloc: Global, fail: Vec<u64>, stop: Option<u64>) -> MemDisk
        ensures nothing { calls_of result ≡ [] }
        ensures listed { (number : ℕ) → is_failing result number ≡ is_listed fail.items stop number }
        ensures fresh { (number_of result ≡ 0) × (faults_of result ≡ 0) × (short_of result ≡ 0) }
    {
        MemDisk {
            alloc,
            slots: BTreeMap::new(alloc),
            calls: Vec::new(alloc),
            fail,
            stop,
            number: 0,
            faults: 0,
            short: 0,
            ahead: ReadAhead::new(alloc),
        }
    }

    /// How many device calls failed for want of memory; it stays at 2^64 - 1.
    pub fn short(&self) -> u64
        ensures { result ≡ short_of self.now }
    {
        self.short
    }

    // Takes the next number, and tells whether the call with it fails.
    pub(crate) fn fails(&mut self) -> bool
        ensures now { result ≡ is_failing self.old (number_of self.old) }
        ensures number { number_of self.new ≡ raised (number_of self.old) }
        ensures listed { (number : ℕ) → is_failing self.new number ≡ is_failing self.old number }
        ensures short { self.new.short ≡ self.old.short }
        ensures calls { self.new.calls ≡ self.old.calls }
        ensures faults { self.new.faults ≡ self.old.faults }
    {
        let number = self.number;
        self.number = number.saturating_add(1);
        let stopped = match self.stop {
            Some(at) => number >= at,
            None => false,
        };
        stopped || self.fail.contains(&number)
    }

    pub(crate) fn fault(&mut self) -> DiskFault
        ensures number { number_of self.new ≡ number_of self.old }
        ensures listed { (number : ℕ) → is_failing self.new number ≡ is_failing self.old number }
        ensures short { self.new.short ≡ self.old.short }
        ensures calls { self.new.calls ≡ self.old.calls }
        ensures counted { self.new.faults ≡ raised self.old.faults }
        ensures rose { Rose self.old.faults self.new.faults }
        ensures later { self.old.faults ≤ self.new.faults }
    {
        self.faults = self.faults.saturating_add(1);
        DiskFault
    }

    // A fault for want of memory.
    pub(crate) fn lack(&mut self) -> DiskFault
        ensures number { number_of self.new ≡ number_of self.old }
        ensures listed { (number : ℕ) → is_failing self.new number ≡ is_failing self.old number }
        ensures short { self.new.short ≡ raised self.old.short }
        ensures calls { self.new.calls ≡ self.old.calls }
        ensures counted { self.new.faults ≡ raised self.old.faults }
        ensures rose { Rose self.old.faults self.new.faults }
        ensures later { self.old.faults ≤ self.new.faults }
    {
        self.short = self.short.saturating_add(1);
        self.fault()
    }

    // A call that changes one place.
    pub(crate) fn change(&mut self, place: &Place, work: Work) -> Result<(), DiskFault>
        requires can { CanDo work }
        ensures ok { OnOk result (self.new.calls.items ≡ self.old.calls.items ++ record { place = place.now; work = work; done = true } ∷ []) }
        ensures err { OnErr result ((self.new.calls.items ≡ self.old.calls.items) ⊎ (self.new.calls.items ≡ self.old.calls.items ++ record { place = place.now; work = work; done = false } ∷ [])) }
        ensures cause { HasCause self.old.faults self.new.faults result }
        ensures exact { FailsExactly self.old self.new result }
        ensures recorded { IsRecorded self.old self.new place.now (λ w. w ≡ work) result }
    {
        let done = !self.fails();
        if !self.add(place, work, done) {
            return Err(self.lack());
        }
        if !done {
            return Err(self.fault());
        }
        Ok(())
    }

    // A call joins the record. False for want of memory: then nothing is changed.
    pub(crate) fn add(&mut self, place: &Place, work: Work, done: bool) -> bool
        requires can { CanDo work }
        ensures calls { self.new.calls.items ≡ (if result then self.old.calls.items ++ record { place = place.now; work = work; done = done } ∷ [] else self.old.calls.items) }
        ensures number { number_of self.new ≡ number_of self.old }
        ensures listed { (number : ℕ) → is_failing self.new number ≡ is_failing self.old number }
        ensures short { short_of self.new ≡ short_of self.old }
        ensures faults { faults_of self.new ≡ faults_of self.old }
    {
        let call = Call {
            place: *place,
            work,
            done,
        };
        // It may change which places are there.
        self.ahead.clear();
        joined(self.alloc, &mut self.slots, &mut self.calls, call)
    }

    // The least place above another, of those that are there.
    pub(crate) fn next_there(&mut self, after: Option<&Place>) -> Option<Place>
        ensures above { IfSome result (λ next. is_above (option_copied after.entry) next ≡ true) }
        ensures least { IsNext (files_of self.old) (option_copied after.entry) result }
        ensures number { number_of self.new ≡ number_of self.old }
        ensures listed { (number : ℕ) → is_failing self.new number ≡ is_failing self.old number }
        ensures short { short_of self.new ≡ short_of self.old }
        ensures calls { self.new.calls ≡ self.old.calls }
        ensures faults { faults_of self.new ≡ faults_of self.old }
    {
        if let Some(after) = after {
            if let Some(next) = self.ahead.step(after) {
                return Some(next);
            }
        }
        self.search(after)
    }

    // The same, by a search of the tree.
    fn search(&mut self, after: Option<&Place>) -> Option<Place>
        ensures above { IfSome result (λ next. is_above (option_copied after.entry) next ≡ true) }
        ensures least { IsNext (files_of self.old) (option_copied after.entry) result }
        ensures number { number_of self.new ≡ number_of self.old }
        ensures listed { (number : ℕ) → is_failing self.new number ≡ is_failing self.old number }
        ensures short { short_of self.new ≡ short_of self.old }
        ensures calls { self.new.calls ≡ self.old.calls }
        ensures faults { faults_of self.new ≡ faults_of self.old }
    {
        let many = self.ahead.many(after);
        self.ahead.at = 0;
        first_after(&self.slots, after, many, &mut self.ahead.places)
    }
}

// A call joins the record, and its place is as it makes it. Without memory nothing is changed.
fn joined(
    alloc: Global,
    slots: &mut BTreeMap<Place, Slot>,
    calls: &mut Vec<Call>,
    call: Call,
) -> bool
    requires can { CanDo call.work }
    requires reads { IsLeft (stand_in slots.old call.place) (stand_in slots.old call.place).now }
    ensures calls { calls.new.items ≡ (if result then calls.old.items ++ call ∷ [] else calls.old.items) }
    ensures here { IsTrue result → (q : List ℕ) → stand_in slots.new q ≡ (if bytes_eq call.place q then worked call.work call.done (stand_in slots.old call.place) else stand_in slots.old q) }
    ensures same { result ≡ false → (q : List ℕ) → stand_in slots.new q ≡ stand_in slots.old q }
{
    let place = call.place;
    if calls.reserve(1).is_err() {
        return false;
    }
    let Ok(kept) = slots.insert(place, absent_slot(alloc)) else {
        return false;
    };
    let mut slot = kept_slot(alloc, kept);
    let is_done = work_on(alloc, &mut slot, &call.work, call.done);
    put_back(slots, place, slot);
    if !is_done {
        return false;
    }
    calls.push(call).is_ok()
}

// Keeps a slot of a place that has one.
fn put_back(slots: &mut BTreeMap<Place, Slot>, place: Place, slot: Slot)
    requires { IsSome (get (slice_cmp nat_cmp) slots.old place) }
    ensures { (q : List ℕ) → stand_in slots.new q ≡ (if bytes_eq place q then stand_of slot else stand_in slots.old q) }
{
    let _absent = slots.insert(place, slot);
}
