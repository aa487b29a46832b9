//! The command `init`.
ghost use Rattle.std.specs.Prelude.{◌≡◌, ◌≢◌, ◌≤◌, ℕ, true, false, find, not, IfOk, IfErr, vec_len};
ghost use Rattle.cm_groups.specs.Names.{is_among};
ghost use Rattle.cm_site.specs.Bays.{AreBays, names_of};
ghost use Rattle.cm_site.specs.Contents.{is_records};
ghost use Rattle.cm_site.specs.Machine.{Given, is_meant as is_one_meant, step_init};
ghost use Rattle.cm_site.specs.Making.{HasMade, HasMadeMeant, HasMadeAll, StopsMaking, StopsMakingMeant, StopsMakingAt};
ghost use Rattle.cm_site.specs.Runs.{Outside, EndsOn};

use crate::records_calls::init_records;
use crate::{Bay, Refusal, Reply};
use cm_base::ServerName;
use cm_disk::Disk;
use cm_library::{CreateFault, Library};

// Whether a bay has that name.
fn is_bay<D: Disk + Drop>(bays: &[Bay<D>], name: ServerName) -> bool
    ensures { result ≡ is_among (names_of bays.now) name }
{
    for bay in bays {
        if bay.name.as_bytes() == name.as_bytes() {
            return true;
        }
    }
    false
}

// The first of the names that is no bay.
fn first_without_bay<D: Disk + Drop>(bays: &[Bay<D>], names: &[ServerName]) -> Option<ServerName>
    ensures { result ≡ find (λ name. not (is_among (names_of bays.now) name)) names.now }
{
    for name in names {
        if !is_bay(bays, *name) {
            return Some(*name);
        }
    }
    None
}

// Whether the name is among these.
fn is_named(names: &[ServerName], name: ServerName) -> bool
    ensures { result ≡ is_among names.now name }
{
    for other in names {
        if other.as_bytes() == name.as_bytes() {
            return true;
        }
    }
    false
}

// Whether the bay of that name is meant.
fn is_meant(names: &[ServerName], name: ServerName) -> bool
    ensures { result ≡ is_one_meant names.now name }
{
    names.is_empty() || is_named(names, name)
}

// Makes new records in a bay that has none. False where it has some. Its name where its disk failed.
fn make_records<D: Disk + Drop>(bay: &mut Bay<D>) -> Result<bool, ServerName>
    requires kind { is_records bay.old.name ≡ true }
    ensures name { bay.new.name ≡ bay.old.name }
    ensures made { IfOk result (λ made. HasMade D.reads D.may_leave D.moment D.left_since made bay.old.name bay.old.disk bay.new.disk) }
    ensures failed { IfErr result (λ name. StopsMaking D.reads D.may_leave D.moment D.left_since D.faults name bay.old.name bay.old.disk bay.new.disk) }
{
    match init_records(&mut bay.disk) {
        Ok(()) => Ok(true),
        Err(CreateFault::AlreadyThere) => Ok(false),
        Err(CreateFault::Disk) => Err(bay.name),
    }
}

// Makes an empty library in a bay that has none. False where it has one. Its name where its disk failed.
fn make_library<D: Disk + Drop>(bay: &mut Bay<D>) -> Result<bool, ServerName>
    requires kind { is_records bay.old.name ≡ false }
    ensures name { bay.new.name ≡ bay.old.name }
    ensures made { IfOk result (λ made. HasMade D.reads D.may_leave D.moment D.left_since made bay.old.name bay.old.disk bay.new.disk) }
    ensures failed { IfErr result (λ name. StopsMaking D.reads D.may_leave D.moment D.left_since D.faults name bay.old.name bay.old.disk bay.new.disk) }
{
    match Library::init(&mut bay.disk) {
        Ok(()) => Ok(true),
        Err(CreateFault::AlreadyThere) => Ok(false),
        Err(CreateFault::Disk) => Err(bay.name),
    }
}

// Makes a bay: the records where it has their name, else its library.
fn make<D: Disk + Drop>(bay: &mut Bay<D>) -> Result<bool, ServerName>
    ensures name { bay.new.name ≡ bay.old.name }
    ensures made { IfOk result (λ made. HasMade D.reads D.may_leave D.moment D.left_since made bay.old.name bay.old.disk bay.new.disk) }
    ensures failed { IfErr result (λ name. StopsMaking D.reads D.may_leave D.moment D.left_since D.faults name bay.old.name bay.old.disk bay.new.disk) }
{
    if bay.name.as_bytes() == b"records".as_slice() {
        make_records(bay)
    } else {
        make_library(bay)
    }
}

// Makes a bay if it is meant.
fn make_meant<D: Disk + Drop>(bay: &mut Bay<D>, names: &[ServerName]) -> Result<bool, ServerName>
    ensures name { bay.new.name ≡ bay.old.name }
    ensures made { IfOk result (λ made. HasMadeMeant D.reads D.may_leave D.moment D.left_since names.now made bay.old.name bay.old.disk bay.new.disk) }
    ensures failed { IfErr result (λ name. StopsMakingMeant D.reads D.may_leave D.moment D.left_since D.faults names.now name bay.old.name bay.old.disk bay.new.disk) }
{
    if is_meant(names, bay.name) {
        make(bay)
    } else {
        Ok(false)
    }
}

// Makes all bays that are meant, one after another. So many were made; the name of the first whose disk failed.
fn make_all<D: Disk + Drop>(bays: &mut Vec<Bay<D>>, names: &[ServerName]) -> Result<u32, ServerName>
    requires most { vec_len bays.old ≤ 66 }
    ensures made { IfOk result (λ count. HasMadeAll D.reads D.may_leave D.moment D.left_since names.now count bays.old.items bays.new.items) }
    ensures failed { IfErr result (λ name. StopsMakingAt D.reads D.may_leave D.moment D.left_since D.faults names.now name bays.old.items bays.new.items) }
{
    let mut count = 0;
    for at in 0..bays.len() {
        match make_meant(&mut bays[at], names) {
            Ok(made) => {
                if made {
                    count += 1;
                }
            }
            Err(bay) => return Err(bay),
        }
    }
    Ok(count)
}

/// Makes all bays that are meant, unless a name is no bay. It reads neither folder nor input, so its clause is of any.
pub(crate) fn init<D: Disk + Drop>(bays: &mut Vec<Bay<D>>, names: &[ServerName]) -> Reply
    requires { AreBays bays.old.items }
    ensures ends { (from to : Outside) (minute : ℕ) → EndsOn D.reads D.may_leave D.moment D.left_since D.faults (λ (given : Given). step_init names.now) from to minute result bays.old.items bays.new.items }
    ensures told { result ≢ Reply.Memory }
{
    if let Some(name) = first_without_bay(bays.as_slice(), names) {
        return Reply::Refused {
            refusal: Refusal::NoBay { name },
        };
    }
    match make_all(bays, names) {
        Ok(count) => Reply::Made { count },
        Err(bay) => Reply::Disk { bay },
    }
}
