//! The entries of arrays, and values at keys.
ghost use Rattle.std.specs.Prelude.{◌≡◌, ◌≢◌, ◌<◌, ◌≤◌, [], All, IfErr, IfOk, IfSome, OnOk, Result, Ok, Err, length, map, option_map};
ghost use Rattle.toml.specs.Data.{Data, get_member};
ghost use Rattle.toml.specs.View.{table_view, view};
ghost use Rattle.cm_topo.specs.Entries.{entry_said, list_said, rows_from, rows_said};
ghost use Rattle.cm_topo.specs.Keys.{needed, otherwise, perhaps};
ghost use Rattle.cm_topo.specs.Rows.{part_said};
ghost use Rattle.cm_topo.specs.declared.trouble.Trouble.{Trouble};
ghost use Rattle.cm_topo.specs.declared.trouble.Trouble.TheVariants.{Memory};

use crate::rules::TOO_MANY;
use crate::trouble::{Placed, Trouble};
use cm_base::{List, Memory as NoMemory};
use std::alloc::Global;
use toml::{Table, Value};

/// What a value of a document says.
pub(crate) trait Said: Drop + Sized {
    /// What a value says, or what is wrong with it.
    ghost said: { Data → Result Self Trouble };

    /// What holds of each that was read.
    ghost IsFit: { Self → Type 0 } = { λ _. Unit {0} };

    /// Reads the value. `Memory` may be answered at any time.
    fn read(alloc: Global, value: &Value) -> Result<Self, Trouble>
        ensures said { IfOk result (λ row. said (view value.now) ≡ Ok row) }
        ensures fit { IfOk result (λ row. IsFit row) }
        ensures wrong { IfErr result (λ trouble. trouble ≢ Memory → said (view value.now) ≡ Err trouble) };
}

/// The value at a key.
pub(crate) fn value_at<'a>(table: &'a Table, key: &str) -> Option<&'a Value>
    ensures { option_map (λ v. view v.now) result ≡ get_member key.now (table_view table.now) }
{
    table.get(key)
}

/// What the value at a key says, which must be there.
pub(crate) fn needed_at<R: Said>(alloc: Global, table: &Table, key: &str) -> Result<R, Trouble>
    ensures said { IfOk result (λ row. needed R.said (get_member key.now (table_view table.now)) ≡ Ok row) }
    ensures fit { IfOk result (λ row. R.IsFit row) }
    ensures wrong { IfErr result (λ trouble. trouble ≢ Memory → needed R.said (get_member key.now (table_view table.now)) ≡ Err trouble) }
{
    match value_at(table, key) {
        Some(value) => R::read(alloc, value),
        None => Err(Trouble::Shape),
    }
}

/// What the value at a key says, or what stands for its absence.
pub(crate) fn otherwise_at<R: Said>(
    alloc: Global,
    table: &Table,
    key: &str,
    absent: R,
) -> Result<R, Trouble>
    ensures said { IfOk result (λ row. otherwise absent R.said (get_member key.now (table_view table.now)) ≡ Ok row) }
    ensures wrong { IfErr result (λ trouble. trouble ≢ Memory → otherwise absent R.said (get_member key.now (table_view table.now)) ≡ Err trouble) }
{
    match value_at(table, key) {
        Some(value) => R::read(alloc, value),
        None => Ok(absent),
    }
}

/// What the value at a key says, where there is one.
pub(crate) fn perhaps_at<R: Said>(
    alloc: Global,
    table: &Table,
    key: &str,
) -> Result<Option<R>, Trouble>
    ensures said { IfOk result (λ row. perhaps R.said (get_member key.now (table_view table.now)) ≡ Ok row) }
    ensures wrong { IfErr result (λ trouble. trouble ≢ Memory → perhaps R.said (get_member key.now (table_view table.now)) ≡ Err trouble) }
{
    match value_at(table, key) {
        Some(value) => Ok(Some(R::read(alloc, value)?)),
        None => Ok(None),
    }
}

/// What the entry of that number says, where there may be so many.
fn entry<R: Said>(
    alloc: Global,
    limit: Option<usize>,
    entry: usize,
    value: &Value,
) -> Result<R, Trouble>
    ensures said { IfOk result (λ row. entry_said R.said limit entry (view value.now) ≡ Ok row) }
    ensures fit { IfOk result (λ row. R.IsFit row) }
    ensures wrong { IfErr result (λ trouble. trouble ≢ Memory → entry_said R.said limit entry (view value.now) ≡ Err trouble) }
    ensures few { IfOk result (λ _. IfSome limit (λ most. entry < most)) }
{
    if let Some(most) = limit {
        if entry >= most {
            return Err(Trouble::Broken(TOO_MANY));
        }
    }
    R::read(alloc, value)
}

/// Adds the rows of entries, in order, before the first entry with which something is wrong: its number is how many were added.
fn add_rows<R: Said>(
    alloc: Global,
    rows: &mut Vec<R>,
    limit: Option<usize>,
    values: &[Value],
) -> Result<(), Trouble>
    requires { rows.old.items ≡ [] }
    ensures said { OnOk result (rows_from R.said limit 0 (map view values.now) ≡ Ok rows.new.items) }
    ensures fit { All R.IsFit rows.new.items }
    ensures few { IfSome limit (λ most. length rows.new.items ≤ most) }
    ensures wrong { IfErr result (λ trouble. trouble ≢ Memory → rows_from R.said limit 0 (map view values.now) ≡ Err (length rows.new.items, trouble)) }
{
    rows.reserve(values.len()).map_err(NoMemory::from)?;
    for (number, value) in values.iter().enumerate() {
        let row = entry::<R>(alloc, limit, number, value)?;
        rows.push(row).map_err(NoMemory::from)?;
    }
    Ok(())
}

/// Adds the rows of the array at a key, none where it is absent, before the first entry with which something is wrong.
fn add_rows_at<R: Said>(
    alloc: Global,
    rows: &mut Vec<R>,
    limit: Option<usize>,
    table: &Table,
    key: &str,
) -> Result<(), Trouble>
    requires { rows.old.items ≡ [] }
    ensures said { OnOk result (rows_said R.said limit (get_member key.now (table_view table.now)) ≡ Ok rows.new.items) }
    ensures fit { All R.IsFit rows.new.items }
    ensures few { IfSome limit (λ most. length rows.new.items ≤ most) }
    ensures wrong { IfErr result (λ trouble. trouble ≢ Memory → rows_said R.said limit (get_member key.now (table_view table.now)) ≡ Err (length rows.new.items, trouble)) }
{
    let Some(value) = value_at(table, key) else {
        return Ok(());
    };
    match value.as_array() {
        Some(array) => add_rows(alloc, rows, limit, array.as_slice()),
        None => Err(Trouble::Shape),
    }
}

/// The rows of the array at a key of a table that is an entry itself.
pub(crate) fn list_at<R: Said>(
    alloc: Global,
    limit: Option<usize>,
    table: &Table,
    key: &str,
) -> Result<List<R>, Trouble>
    ensures said { IfOk result (λ rows. list_said R.said limit (get_member key.now (table_view table.now)) ≡ Ok rows) }
    ensures wrong { IfErr result (λ trouble. trouble ≢ Memory → list_said R.said limit (get_member key.now (table_view table.now)) ≡ Err trouble) }
{
    let mut rows = Vec::new(alloc);
    add_rows_at(alloc, &mut rows, limit, table, key)?;
    Ok(List::of(rows))
}

/// The rows of the part of that number, whose array stands at a key and has so many entries at most.
pub(crate) fn part_of<R: Said>(
    alloc: Global,
    table: &Table,
    part: u8,
    key: &str,
    limit: usize,
) -> Result<Vec<R>, Placed>
    requires { limit ≤ 5000 }
    ensures said { IfOk result (λ rows. part_said R.said part limit (get_member key.now (table_view table.now)) ≡ Ok rows.items) }
    ensures fit { IfOk result (λ rows. All R.IsFit rows.items) }
    ensures few { IfOk result (λ rows. length rows.items ≤ limit) }
    ensures wrong { IfErr result (λ placed. placed.trouble ≢ Memory → part_said R.said part limit (get_member key.now (table_view table.now)) ≡ Err placed) }
{
    let mut rows = Vec::new(alloc);
    match add_rows_at(alloc, &mut rows, Some(limit), table, key) {
        Ok(()) => Ok(rows),
        Err(trouble) => Err(trouble.at(part, rows.len() as u16)),
    }
}
