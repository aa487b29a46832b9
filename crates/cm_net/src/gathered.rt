//! What the index needs of rows, gathered in one walk.
ghost use Rattle.std.specs.Prelude.{◌≡◌, ◌++◌, ◌∷◌, [], ◌+◌, ◌≤◌, ℕ, List, All, IfOk, OnOk, length, map};
ghost use Rattle.cm_net.specs.Boundaries.{is_site, IsSound, rows_of};
ghost use Rattle.cm_net.specs.Gathered.{IsGatheredOf};
ghost use Rattle.cm_net.specs.Groups.{rows_in};
ghost use Rattle.cm_net.specs.Sites.{HaveNumbersOf};
ghost use Rattle.cm_net.specs.Spans.{is_held, spans_of};
ghost use Rattle.cm_net.specs.declared.boundary.Boundary.{Boundary};

use crate::Boundary;
use crate::joining::add_joined;
use crate::site_numbers::SiteNumbers;
use crate::span::{Span, ends4, ends6};
use cm_base::List;
use std::alloc::{AllocError, Global};

/// The spans of the addresses of rows, and for each site the numbers of its rows.
#[derive(Drop)]
pub(crate) struct Gathered {
    pub four: Vec<Span>,
    pub six: Vec<Span>,
    pub sites: SiteNumbers,
}

/// Adds the span from the one end to the other, where there are ends.
fn add_span(spans: &mut Vec<Span>, ends: Option<(u128, u128)>, group: u16) -> Result<(), AllocError>
    ensures same { OnOk result ((address number : ℕ) → is_held spans.new.items address number ≡ is_held (spans.old.items ++ spans_of ends group) address number) }
    ensures few { OnOk result (length spans.new.items ≤ length spans.old.items + length (spans_of ends group)) }
{
    if let Some((first, last)) = ends {
        add_joined(spans, Span { first, last, group })?;
    }
    Ok(())
}

/// Adds the number to those of the site, where the boundary is of one.
fn add_site(
    alloc: Global,
    sites: &mut SiteNumbers,
    boundary: &Boundary,
    group: u16,
) -> Result<(), AllocError>
    ensures added { OnOk result ((rows : List (Boundary × ℕ)) → HaveNumbersOf rows sites.old.entries.items
        → HaveNumbersOf (rows ++ (boundary.now, group) ∷ []) sites.new.entries.items) }
    ensures few { OnOk result (length sites.new.entries.items ≤ length sites.old.entries.items + rows_of is_site ((boundary.now, group) ∷ [])) }
{
    if let Boundary::Site { name } = boundary {
        sites.add(alloc, name, group)?;
    }
    Ok(())
}

impl Gathered {
    /// Adds a row.
    fn add(&mut self, alloc: Global, boundary: &Boundary, group: u16) -> Result<(), AllocError>
        requires { IsSound boundary.now }
        ensures { OnOk result ((rows : List (Boundary × ℕ)) → IsGatheredOf rows self.old → IsGatheredOf (rows ++ (boundary.now, group) ∷ []) self.new) }
    {
        add_span(&mut self.four, ends4(boundary), group)?;
        add_span(&mut self.six, ends6(boundary), group)?;
        add_site(alloc, &mut self.sites, boundary, group)?;
        Ok(())
    }

    /// Adds a row for each boundary.
    fn add_all(
        &mut self,
        alloc: Global,
        boundaries: &[Boundary],
        group: u16,
    ) -> Result<(), AllocError>
        requires { All IsSound boundaries.now }
        ensures { OnOk result ((rows : List (Boundary × ℕ)) → IsGatheredOf rows self.old
            → IsGatheredOf (rows ++ map (λ boundary. (boundary, group)) boundaries.now) self.new) }
    {
        for boundary in boundaries {
            self.add(alloc, boundary, group)?;
        }
        Ok(())
    }
}

/// What the index needs of the boundaries of lists, each list with the number of its group.
pub(crate) fn gather(alloc: Global, lists: &[(List<Boundary>, u16)]) -> Result<Gathered, AllocError>
    requires { All (λ list. All IsSound list.0) lists.now }
    ensures { IfOk result (λ gathered. IsGatheredOf (rows_in lists.now) gathered) }
{
    let mut gathered = Gathered {
        four: Vec::new(alloc),
        six: Vec::new(alloc),
        sites: SiteNumbers::none(alloc),
    };
    for (boundaries, group) in lists {
        gathered.add_all(alloc, boundaries.items(), *group)?;
    }
    Ok(gathered)
}
