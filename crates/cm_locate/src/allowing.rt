//! Which groups let peers serve a client.
ghost use Rattle.std.specs.Prelude.{◌≡◌, ◌<◌, All, IfOk, filter, length};
ghost use Rattle.cm_groups.specs.Current.{passes};
ghost use Rattle.cm_locate.specs.Clients.{allowed};
ghost use Rattle.cm_locate.specs.Eligible.{allows};

use cm_base::Memory;
use cm_groups::{Groups, Options};
use std::alloc::Global;

/// Whether a group of these options lets a peer serve.
fn allows(is_near: bool, options: Options) -> bool
    ensures { result ≡ allows is_near options }
{
    options.peers && (!options.same_subnet_only || is_near)
}

/// Whether the group lets a peer serve.
fn group_allows(groups: &Groups, number: u16, is_near: bool) -> bool
    requires { number < length groups.now }
    ensures { result ≡ passes (λ group. allows is_near group.options) groups.now number }
{
    allows(is_near, groups.options(number))
}

/// Those of the groups that let a peer serve which is in the client's subnet, or is not.
pub(crate) fn allowed(
    alloc: Global,
    groups: &Groups,
    numbers: &[u16],
    is_near: bool,
) -> Result<Vec<u16>, Memory>
    requires { All (λ number. number < length groups.now) numbers.now }
    ensures { IfOk result (λ found. found.items ≡ allowed groups.now is_near numbers.now) }
{
    Ok(
        numbers
            .iter()
            .copied()
            .filter(|number| group_allows(groups, *number, is_near))
            .collect(alloc)?,
    )
}
