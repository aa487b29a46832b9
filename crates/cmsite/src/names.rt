//! The names of the bays of a base folder.
ghost use Rattle.std.specs.Prelude.{◌≡◌, filter, take, IfOk};
ghost use Rattle.std.specs.List.{list_all};
ghost use Rattle.cm_groups.specs.Names.{is_among};
ghost use Rattle.cm_site.specs.Contents.{site, records_bay};
ghost use Rattle.cmsite.specs.BayNames.{own_name, is_other, in_order, bays_of};

use cm_base::{Memory, ServerName};
use std::alloc::Global;
use std::collections::BTreeSet;

// The most bays beside the site's and the records'.
const MOST_OTHERS: usize = 64;

/// The name that a text gives, where that is the text itself.
pub(crate) fn own_name(text: &str) -> Option<ServerName>
    ensures { result ≡ own_name text.now }
{
    match ServerName::read(text.as_bytes()) {
        Some(name) if name.as_bytes() == text.as_bytes() => Some(name),
        _ => None,
    }
}

/// The bay of the site's own library.
pub(crate) fn site() -> ServerName
    ensures { result ≡ site }
{
    match ServerName::read(b"site") {
        Some(name) => name,
        None => unreachable!(),
    }
}

fn records() -> ServerName
    ensures { result ≡ records_bay }
{
    match ServerName::read(b"records") {
        Some(name) => name,
        None => unreachable!(),
    }
}

// Whether a name is one of these.
fn is_among(names: &[ServerName], name: &ServerName) -> bool
    ensures { result ≡ is_among names.now name.now }
{
    names
        .iter()
        .any(|other| other.as_bytes() == name.as_bytes())
}

/// Whether each of some names is one of these.
pub(crate) fn are_among(bays: &[ServerName], names: &[ServerName]) -> bool
    ensures { result ≡ list_all (is_among bays.now) names.now }
{
    names.iter().all(|name| is_among(bays, name))
}

fn is_other(name: &ServerName) -> bool
    ensures { result ≡ is_other name.now }
{
    let text = name.as_bytes();
    text != b"site".as_slice()
        && text != b"records".as_slice()
        && text != b".".as_slice()
        && text != b"..".as_slice()
}

// The other names, in byte order.
fn others_in_order(alloc: Global, names: &[ServerName]) -> Result<BTreeSet<ServerName>, Memory>
    ensures { IfOk result (λ others. others.keys ≡ in_order (filter is_other names.now)) }
{
    let mut others = BTreeSet::new(alloc);
    for name in names {
        if is_other(name) {
            others.insert(*name)?;
        }
    }
    Ok(others)
}

// The first names of so many.
fn first_of(
    alloc: Global,
    names: &BTreeSet<ServerName>,
    most: usize,
) -> Result<Vec<ServerName>, Memory>
    ensures { IfOk result (λ first. first.items ≡ take most names.now.keys) }
{
    Ok(names.iter().take(most).copied().collect(alloc)?)
}

/// The bays of a base folder in which these names are there: `site`, then `records` where it is one of them, then the first
/// 64 others in byte order.
pub(crate) fn bays_of(alloc: Global, names: &[ServerName]) -> Result<Vec<ServerName>, Memory>
    ensures { IfOk result (λ bays. bays.items ≡ bays_of names.now) }
{
    let records = records();
    let others = others_in_order(alloc, names)?;
    let others = first_of(alloc, &others, MOST_OTHERS)?;
    let mut bays = Vec::new(alloc);
    bays.push(site())?;
    if is_among(names, &records) {
        bays.push(records)?;
    }
    for name in &others {
        bays.push(*name)?;
    }
    Ok(bays)
}
