//! A site: all bays, open.
ghost use Rattle.std.specs.Prelude.{◌≡◌, ◌<◌, ◌^◌, ℕ, IfOk, IfErr};
ghost use Rattle.cm_site.specs.Bays.{AreBays};
ghost use Rattle.cm_site.specs.Machine.{Given, Step, opened, step_init, step_add, step_update, step_drop, step_list, step_validate, step_what_if, step_purge, step_topology};
ghost use Rattle.cm_site.specs.Opened.{IsOpenSite, bays_from, bays_now};
ghost use Rattle.cm_site.specs.Openings.{fault_reply};
ghost use Rattle.cm_site.specs.Runs.{Fed, Outside, Sourced, EndsOn, beside, fed, sourced};
ghost use Rattle.cm_site.specs.Worlds.{World};

use crate::adding::{add_opened, refused, update_opened};
use crate::dropping::drop_opened;
use crate::finding::library_at;
use crate::giving_back::close_all;
use crate::init::init;
use crate::listing::list_opened;
use crate::member::{Hold, Member};
use crate::opening::{open_all, point_without_bay};
use crate::purging::{purge_opened, what_if_opened};
use crate::topology::take_input;
use crate::validating::validate_opened;
use crate::{Bay, Refusal, Reply, SiteFault};
use cm_base::{JobId, PackageId, ServerName, Source, Version};
use cm_disk::Disk;
use cm_tree::Folder;
use std::alloc::Global;
use std::marker::Model;

/// All bays of a site, open: the libraries, and the records where they are handed in. Contracts see the bays in their order.
#[derive(Drop)]
pub struct Site<D: Disk> {
    // in the order of the bays
    members: Vec<Member<D>>,
    // empty, with room for one bay of each member
    back: Vec<Bay<D>>,
}

impl<D: Disk> Model for Site<D> {
    ghost use Rattle.std.specs.Prelude.{◌≡◌, ◌≤◌, [], List, vec_len, vec_capacity};
    ghost use Rattle.cm_site.specs.declared.member.Member.{Member};

    ghost Value = { List (Member D) };

    ghost view = { λ s. s.members.items };

    ghost invariant = { λ s. (s.back.items ≡ []) × (vec_len s.members ≤ vec_capacity s.back) };
}

impl<D: Disk + Drop> Site<D> {
    /// Makes an empty library, or new records, in each bay of these names that has nothing, or in each bay where no name is given. Nothing
    /// is made where a name is no bay. It takes no memory, and reads neither folder nor input, so its clause is of any.
    pub fn init(bays: &mut Vec<Bay<D>>, names: &[ServerName]) -> Reply
        requires bays { AreBays bays.old.items }
        ensures { (from to : Outside) (minute : ℕ) → EndsOn D.reads D.may_leave D.moment D.left_since D.faults (λ (given : Given). step_init names.now) from to minute result bays.old.items bays.new.items }
    {
        init(bays, names)
    }

    /// Opens all bays. They are given back with a fault: the first one, in their order.
    pub fn open(alloc: Global, bays: Vec<Bay<D>>) -> Result<Site<D>, (Vec<Bay<D>>, SiteFault)>
        requires bays { AreBays bays.items }
        ensures start { IfOk result (λ site. bays_from site ≡ bays.items) }
        ensures opened { IfOk result (IsOpenSite D.reads D.may_leave D.moment D.left_since D.faults) }
        ensures refused { IfErr result (λ refused. (step : Given → World → Step) (from to : Outside) (minute : ℕ)
            → EndsOn D.reads D.may_leave D.moment D.left_since D.faults (λ given. opened (step given)) from to minute (fault_reply refused.1) bays.items refused.0.items) }
    {
        let members = match Vec::with_capacity(alloc, bays.len()) {
            Ok(members) => members,
            Err(_) => return Err((bays, SiteFault::Memory)),
        };
        let back = match Vec::with_capacity(alloc, bays.len()) {
            Ok(back) => back,
            Err(_) => return Err((bays, SiteFault::Memory)),
        };
        let (members, back) = match open_all(alloc, bays, members, back) {
            Ok(opened) => opened,
            Err(refused) => return Err(refused),
        };
        match point_without_bay(members.as_slice()) {
            Some(name) => Err((close_all(members, back), SiteFault::NoBayFor { name })),
            None => Ok(Site { members, back }),
        }
    }

    /// Gives the bays back. It takes no memory.
    pub fn close(self) -> Vec<Bay<D>>
        ensures { result.items ≡ bays_now self }
    {
        let Site { members, back } = self;
        close_all(members, back)
    }

    /// Adds the folder as version 1 of a package that was never opened. It reads no input.
    pub fn add<F: Folder>(&mut self, alloc: Global, package: PackageId, folder: &mut F) -> Reply
        requires opened { IsOpenSite D.reads D.may_leave D.moment D.left_since D.faults self.old }
        ensures { (from to : Fed) (minute : ℕ) → EndsOn D.reads D.may_leave D.moment D.left_since D.faults (step_add «package»)
            (beside (sourced F.shows F.faults folder.old) from) (beside (sourced F.shows F.faults folder.new) to) minute result (bays_from self.old) (bays_now self.new) }
    {
        let name = self.members[0].name;
        match &mut self.members[0].hold {
            Hold::Library(library) => add_opened(alloc, library, folder, package, name),
            Hold::Records(_) => unreachable!(),
        }
    }

    /// Adds the folder as the version behind the greatest one that was opened of a package. It reads no input.
    pub fn update<F: Folder>(&mut self, alloc: Global, package: PackageId, folder: &mut F) -> Reply
        requires opened { IsOpenSite D.reads D.may_leave D.moment D.left_since D.faults self.old }
        ensures { (from to : Fed) (minute : ℕ) → EndsOn D.reads D.may_leave D.moment D.left_since D.faults (step_update «package»)
            (beside (sourced F.shows F.faults folder.old) from) (beside (sourced F.shows F.faults folder.new) to) minute result (bays_from self.old) (bays_now self.new) }
    {
        let name = self.members[0].name;
        match &mut self.members[0].hold {
            Hold::Library(library) => update_opened(alloc, library, folder, package, name),
            Hold::Records(_) => unreachable!(),
        }
    }

    /// Gives up an unfinished job of a bay.
    pub fn drop_job(&mut self, bay: ServerName, job: JobId) -> Reply
        requires opened { IsOpenSite D.reads D.may_leave D.moment D.left_since D.faults self.old }
        ensures { (from to : Outside) (minute : ℕ) → EndsOn D.reads D.may_leave D.moment D.left_since D.faults (step_drop bay job) from to minute result (bays_from self.old) (bays_now self.new) }
    {
        match library_at(&self.members, bay) {
            Some(at) => match &mut self.members[at].hold {
                Hold::Library(library) => drop_opened(library, bay, job),
                Hold::Records(_) => unreachable!(),
            },
            None => refused(Refusal::NoBay { name: bay }),
        }
    }

    /// Lists the versions and unfinished jobs of a bay.
    pub fn list(&mut self, alloc: Global, bay: ServerName) -> Reply
        requires opened { IsOpenSite D.reads D.may_leave D.moment D.left_since D.faults self.old }
        ensures { (from to : Outside) (minute : ℕ) → EndsOn D.reads D.may_leave D.moment D.left_since D.faults (step_list bay) from to minute result (bays_from self.old) (bays_now self.new) }
    {
        match library_at(&self.members, bay) {
            Some(at) => match &mut self.members[at].hold {
                Hold::Library(library) => list_opened(alloc, library, bay),
                Hold::Records(_) => unreachable!(),
            },
            None => refused(Refusal::NoBay { name: bay }),
        }
    }

    /// Reads the stored files of a version of a bay again.
    pub fn validate(
        &mut self,
        alloc: Global,
        bay: ServerName,
        package: PackageId,
        version: Version,
    ) -> Reply
        requires opened { IsOpenSite D.reads D.may_leave D.moment D.left_since D.faults self.old }
        ensures { (from to : Outside) (minute : ℕ) → EndsOn D.reads D.may_leave D.moment D.left_since D.faults (step_validate bay «package» version) from to minute result (bays_from self.old) (bays_now self.new) }
    {
        match library_at(&self.members, bay) {
            Some(at) => match &mut self.members[at].hold {
                Hold::Library(library) => validate_opened(alloc, library, bay, package, version),
                Hold::Records(_) => unreachable!(),
            },
            None => refused(Refusal::NoBay { name: bay }),
        }
    }

    /// Lists what a purge of a bay would remove.
    pub fn what_if(&mut self, alloc: Global, bay: ServerName) -> Reply
        requires opened { IsOpenSite D.reads D.may_leave D.moment D.left_since D.faults self.old }
        ensures { (from to : Outside) (minute : ℕ) → EndsOn D.reads D.may_leave D.moment D.left_since D.faults (step_what_if bay) from to minute result (bays_from self.old) (bays_now self.new) }
    {
        match library_at(&self.members, bay) {
            Some(at) => match &mut self.members[at].hold {
                Hold::Library(library) => what_if_opened(alloc, library, bay),
                Hold::Records(_) => unreachable!(),
            },
            None => refused(Refusal::NoBay { name: bay }),
        }
    }

    /// Removes what no version and no unfinished job of a bay needs.
    pub fn purge(&mut self, bay: ServerName) -> Reply
        requires opened { IsOpenSite D.reads D.may_leave D.moment D.left_since D.faults self.old }
        ensures { (from to : Outside) (minute : ℕ) → EndsOn D.reads D.may_leave D.moment D.left_since D.faults (step_purge bay) from to minute result (bays_from self.old) (bays_now self.new) }
    {
        match library_at(&self.members, bay) {
            Some(at) => match &mut self.members[at].hold {
                Hold::Library(library) => purge_opened(library, bay),
                Hold::Records(_) => unreachable!(),
            },
            None => refused(Refusal::NoBay { name: bay }),
        }
    }

    /// Replaces the topology by what the input says. The input is read up to one byte past the most that a topology has, and not at all
    /// where the records are not handed in. It reads no folder.
    pub fn topology<S: Source>(&mut self, alloc: Global, input: &mut S, minute: u64) -> Reply
        requires opened { IsOpenSite D.reads D.may_leave D.moment D.left_since D.faults self.old }
        requires minute { minute < 2 ^ 40 }
        ensures { (from to : Sourced) → EndsOn D.reads D.may_leave D.moment D.left_since D.faults step_topology
            (beside from (fed S.left S.faults input.old)) (beside to (fed S.left S.faults input.new)) minute result (bays_from self.old) (bays_now self.new) }
    {
        take_input(alloc, self.members.as_mut_slice(), input, minute)
    }
}
