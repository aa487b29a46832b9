//! A search by halves.
ghost use Rattle.std.specs.Prelude.{length};
ghost use Rattle.std.specs.List.Sorted.{IsBinarySearchResult, IsSearchInRange};
ghost use Rattle.cm_net.specs.Entries.{TakesHalves};

use crate::Steps;
use crate::entry::Entry;
use std::cmp::Ordering;
use std::sync::ledger::Ledger;

/// The place of the key among entries in the order of their keys, or the place where it would stand.
pub(crate) fn place_of<K: Ord, L: Ledger>(
    entries: &[Entry<K>],
    key: &K,
    steps: &mut Steps<L>,
) -> Result<usize, usize>
    ensures within { IsSearchInRange result (length entries.now) }
    ensures place { IsBinarySearchResult (λ entry. K.cmp entry.key key.now) entries.now result }
    ensures steps { TakesHalves (length entries.now) steps.old steps.new }
{
    let mut low = 0;
    let mut high = entries.len();
    while low < high {
        let middle = low + (high - low) / 2;
        match entries[middle].compare(key, steps) {
            Ordering::Less => low = middle + 1,
            Ordering::Greater => high = middle,
            Ordering::Equal => return Ok(middle),
        }
    }
    Err(low)
}
