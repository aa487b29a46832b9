//! The calls of a folder in memory.
ghost use Rattle.std.specs.Prelude.{◌≡◌, ◌+◌, ◌-◌, ◌^◌, ◌≤◌, ◌<◌, min, length, IfOk, true, false};
ghost use Rattle.std.specs.Option.{ForSome};
ghost use Rattle.std.specs.Bool.{OnTrue, OnFalse};
ghost use Rattle.std.specs.Result.{is_err};
ghost use Rattle.cm_base.specs.Listed.{is_listed};
ghost use Rattle.cm_tree.specs.MemFolders.{IsMadeOf};

use crate::mem_place::join;
use crate::mem_read::{path_kept, read_kept};
use crate::{Folder, FolderFault, MemFolder, RawPath};
use cm_base::{Memory, is_among};
use std::alloc::Global;

impl MemFolder {
    ghost use Rattle.cm_tree.specs.MemCalls.{shown_by, fails_at, calls_of, faults_of};

    /// A folder of these files, each a path and its bytes, in any order. Of a path that is handed in twice the first counts.
    /// Once a file was read to its end it has the bytes that `later` has for its path, if it is there. The calls fail exactly
    /// whose numbers, from 0, are in `fail`, and take no memory.
    pub fn new(
        alloc: Global,
        files: Vec<(Vec<u8>, Vec<u8>)>,
        later: Vec<(Vec<u8>, Vec<u8>)>,
        fail: Vec<u64>,
    ) -> Result<MemFolder, Memory>
        ensures files { IfOk result (λ folder. IsMadeOf files.items later.items (shown_by folder)) }
        ensures fail { IfOk result (λ folder. fails_at folder ≡ fail.items) }
        ensures calls { IfOk result (λ folder. calls_of folder ≡ 0) }
        ensures faults { IfOk result (λ folder. faults_of folder ≡ 0) }
    {
        let mut kept = Vec::new(alloc);
        for pair in &files {
            join(alloc, &mut kept, &later, pair)?;
        }
        Ok(MemFolder {
            files: kept,
            fail,
            number: 0,
            faults: 0,
        })
    }

    /// Counts a call. True where it is to fail, which is counted too.
    fn is_failing(&mut self) -> bool
        ensures listed { result ≡ is_listed (fails_at self.old) (calls_of self.old) }
        ensures files { self.new.files ≡ self.old.files }
        ensures fail { fails_at self.new ≡ fails_at self.old }
        ensures calls { calls_of self.new ≡ min (calls_of self.old + 1) (2 ^ 64 - 1) }
        ensures failed { OnTrue result (faults_of self.new ≡ min (faults_of self.old + 1) (2 ^ 64 - 1)) }
        ensures later { faults_of self.old ≤ faults_of self.new }
        ensures kept { OnFalse result (faults_of self.new ≡ faults_of self.old) }
    {
        let number = self.number;
        self.number = number.saturating_add(1);
        if is_among(&self.fail, number) {
            self.faults = self.faults.saturating_add(1);
            return true;
        }
        false
    }
}

impl Folder for MemFolder {
    ghost use Rattle.cm_base.specs.Causes.{HasCause};
    ghost use Rattle.cm_tree.specs.Folders.{raw_path, Stays, Turns, GivesPart, is_end};
    ghost use Rattle.cm_tree.specs.MemCalls.{shown_by, faults_of, FailsExactly};

    ghost shows = { shown_by };

    ghost faults = { faults_of };

    fn path_at(&mut self, n: u32) -> Result<Option<RawPath>, FolderFault>
        ensures path { IfOk result (λ path. path ≡ raw_path (shown_by self.old) n) }
        ensures same { Stays (shown_by self.old) (shown_by self.new) }
        ensures cause { HasCause (faults_of self.old) (faults_of self.new) result }
        ensures exact { FailsExactly self.old self.new result }
    {
        if self.is_failing() {
            return Err(FolderFault);
        }
        Ok(path_kept(&self.files, n))
    }

    fn read_at(&mut self, n: u32, offset: u64, buf: &mut [u8]) -> Result<usize, FolderFault>
        ensures fits { IfOk result (λ count. count ≤ length buf.new) }
        ensures bytes { IfOk result (λ count. ForSome ((shown_by self.old).now n) (λ bytes. GivesPart bytes offset buf.new count)) }
        ensures none { IfOk result (λ count. length (shown_by self.old).paths ≤ n → count ≡ 0) }
        ensures after { Turns n (is_end result (length buf.new)) (shown_by self.old) (shown_by self.new) }
        ensures cause { HasCause (faults_of self.old) (faults_of self.new) result }
        ensures exact { FailsExactly self.old self.new result }
    {
        if self.is_failing() {
            return Err(FolderFault);
        }
        Ok(read_kept(&mut self.files, n, offset, buf))
    }

    ghost rising = { λ folder. folder.rising };
}
