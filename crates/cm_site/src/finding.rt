//! The library of a bay is found among the members.
ghost use Rattle.std.specs.Prelude.{◌≡◌, None, IfSome, ◌<◌, length};
ghost use Rattle.cm_site.specs.Found.{IsLibraryAt};
ghost use Rattle.cm_site.specs.Opened.{world_of};
ghost use Rattle.cm_site.specs.Worlds.{library_at};

use crate::member::{Hold, Member};
use cm_base::ServerName;
use cm_disk::Disk;

/// Where the library of a bay stands. None where no member of that name is a library.
pub(crate) fn library_at<D: Disk>(members: &[Member<D>], bay: ServerName) -> Option<usize>
    ensures found { IfSome result (λ at. IsLibraryAt bay at members.now) }
    ensures within { IfSome result (λ at. at < length members.now) }
    ensures none { result ≡ None → library_at bay (world_of members.now) ≡ None }
{
    for at in 0..members.len() {
        if members[at].name == bay {
            return match &members[at].hold {
                Hold::Library(_) => Some(at),
                Hold::Records(_) => None,
            };
        }
    }
    None
}
