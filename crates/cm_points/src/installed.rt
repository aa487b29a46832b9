//! What is installed on the points.
ghost use Rattle.std.specs.Prelude.{◌≡◌, IfOk};
ghost use Rattle.std.specs.List.Sorted.{IsSorted};
ghost use Rattle.cm_points.specs.Installs.{is_installed, AreSameRows, row_cmp};

use cm_base::{Memory, PackageId, ServerName, Version};
use std::alloc::Global;
use std::marker::Model;

/// Which versions of packages are installed on which points, by package, version and point. Contracts see the list of these
/// rows.
#[derive(Drop)]
pub struct Installed {
    rows: Vec<(ServerName, PackageId, Version)>,
}

impl Model for Installed {
    ghost use Rattle.std.specs.Prelude.{List};
    ghost use Rattle.std.specs.List.Sorted.{IsSorted};
    ghost use Rattle.cm_points.specs.Installs.{InstalledRow, row_cmp};

    ghost Value = { List InstalledRow };

    ghost view = { λ installed. installed.rows.items };

    ghost invariant = { λ installed. IsSorted row_cmp installed.rows.items };
}

/// The rows in order.
fn in_order(rows: Vec<(ServerName, PackageId, Version)>) -> Vec<(ServerName, PackageId, Version)>
    ensures same { AreSameRows rows.items result.items }
    ensures sorted { IsSorted row_cmp result.items }
{
    let mut rows = rows;
    rows.sort_unstable_by_key(|row| (row.1, row.2, row.0));
    rows
}

/// Whether a row is among rows in order, looked for by halves.
fn has_row(
    rows: &[(ServerName, PackageId, Version)],
    row: &(ServerName, PackageId, Version),
) -> bool
    requires { IsSorted row_cmp rows.now }
    ensures { result ≡ is_installed rows.now row.now.0 row.now.1 row.now.2 }
{
    let key = (row.1, row.2, row.0);
    rows.binary_search_by_key(&key, |other| (other.1, other.2, other.0))
        .is_ok()
}

impl Installed {
    /// What these rows say is installed.
    pub fn build(
        alloc: Global,
        rows: &[(ServerName, PackageId, Version)],
    ) -> Result<Installed, Memory>
        ensures { IfOk result (AreSameRows rows.now) }
    {
        Ok(Installed {
            rows: in_order(Vec::from_slice(alloc, rows)?),
        })
    }

    /// Whether the version is installed on the point. False exactly where no row says so.
    pub fn has(&self, point: &ServerName, package: PackageId, version: Version) -> bool
        ensures { result ≡ is_installed self.now point.now «package» version }
    {
        has_row(&self.rows, &(*point, package, version))
    }
}
