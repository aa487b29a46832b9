//! The bays below the base folder.
ghost use Rattle.std.specs.Prelude.{◌≡◌, IfOk, string_bytes};
ghost use Rattle.cm_site.specs.Bays.{AreBays, names_of};
ghost use Rattle.cmsite.specs.Arguments.{bay_in};
ghost use Rattle.cmsite.specs.BayNames.{bays_of, HasFirstOthers};

use crate::base::Access;
use crate::bay_disk::BayDisk;
use crate::names::bays_of;
use cm_base::{Memory, ServerName};
use cm_disk::HostDisk;
use cm_top::Bay;
use std::alloc::Global;
use std::fs::File;
use std::rt::Files;

// The folder of a bay's disk.
fn bay_folder(alloc: Global, base: &str, name: &ServerName) -> Result<String, Memory>
    ensures { IfOk result (λ path. string_bytes path ≡ bay_in base.now name.now) }
{
    name.show_form();
    let Ok(name) = std::str::from_utf8(name.as_bytes()) else {
        unreachable!()
    };
    let mut path = String::from_str(alloc, base)?;
    path.push('/')?;
    path.push_str(name)?;
    Ok(path)
}

// The bays of these names.
fn named_bays<R: Files<File = File> + AllocGlobal + Clone + Drop>(
    rt: &R,
    base: &str,
    access: Access,
    names: &[ServerName],
) -> Result<Vec<Bay<BayDisk<R>>>, Memory>
    ensures { IfOk result (λ bays. names_of bays.items ≡ names.now) }
{
    let mut bays = Vec::new(rt.alloc());
    for name in names {
        let disk = BayDisk {
            access,
            disk: HostDisk::new(rt.clone()?, bay_folder(rt.alloc(), base, name)?.as_str())?,
            count: 0,
        };
        bays.push(Bay { name: *name, disk })?;
    }
    Ok(bays)
}

/// The bays of a base folder in which folders of these names are there.
pub(crate) fn bays_below<R: Files<File = File> + AllocGlobal + Clone + Drop>(
    rt: &R,
    base: &str,
    access: Access,
    there: &[ServerName],
) -> Result<Vec<Bay<BayDisk<R>>>, Memory>
    ensures names { IfOk result (λ bays. names_of bays.items ≡ bays_of there.now) }
    ensures bays { IfOk result (λ bays. AreBays bays.items) }
    ensures first { IfOk result (λ bays. HasFirstOthers there.now (names_of bays.items)) }
{
    let names = bays_of(rt.alloc(), there)?;
    let bays = named_bays(rt, base, access, &names)?;
    Ok(bays)
}
