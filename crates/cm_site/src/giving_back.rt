//! Bays are given back.
ghost use Rattle.std.specs.Prelude.{◌≡◌, ◌≤◌, ◌+◌, ◌++◌, vec_len, vec_capacity};
ghost use Rattle.cm_site.specs.Opened.{bay_of, bays_now};

use crate::Bay;
use crate::member::{Hold, Member};
use crate::records_calls::close_records;
use cm_disk::Disk;

// Gives the bay of a member back.
fn close_member<D: Disk + Drop>(member: Member<D>) -> Bay<D>
    ensures { result ≡ bay_of member }
{
    let Member { name, hold } = member;
    match hold {
        Hold::Library(library) => Bay {
            name,
            disk: library.close(),
        },
        Hold::Records(records) => Bay {
            name,
            disk: close_records(records),
        },
    }
}

/// Gives the bays of members back, behind others. There is room for them.
pub(crate) fn close_all<D: Disk + Drop>(members: Vec<Member<D>>, back: Vec<Bay<D>>) -> Vec<Bay<D>>
    requires room { vec_len back + vec_len members ≤ vec_capacity back }
    ensures items { result.items ≡ back.items ++ bays_now members.items }
    ensures capacity { vec_capacity result ≡ vec_capacity back }
{
    let mut back = back;
    for member in members {
        back.push_reserved(close_member(member));
    }
    back
}

/// Gives bays back, behind others. There is room for them.
pub(crate) fn put_all<D: Disk + Drop>(bays: Vec<Bay<D>>, back: Vec<Bay<D>>) -> Vec<Bay<D>>
    requires room { vec_len back + vec_len bays ≤ vec_capacity back }
    ensures { result.items ≡ back.items ++ bays.items }
{
    let mut back = back;
    for bay in bays {
        back.push_reserved(bay);
    }
    back
}
