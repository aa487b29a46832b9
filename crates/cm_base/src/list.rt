//! A list of rows.
ghost use Rattle.std.specs.Prelude.{◌≡◌};

use std::marker::Model;

/// Rows in order, in a `Vec`. Contracts see the list of them.
#[derive(Drop)]
pub struct List<T> {
    rows: Vec<T>,
}

impl<T> Model for List<T> {
    ghost use Rattle.std.specs.Prelude.{List};

    ghost Value = { List T };

    ghost view = { λ list. list.rows.items };
}

impl<T> List<T> {
    /// The list of these items.
    pub fn of(items: Vec<T>) -> List<T>
        ensures { result ≡ items.items }
    {
        List { rows: items }
    }

    /// The items in order.
    pub fn items(&self) -> &[T]
        ensures { result.now ≡ self.now }
    {
        &self.rows
    }

    /// The items, without memory.
    pub fn into_items(self) -> Vec<T>
        ensures { result.items ≡ self }
    {
        let List { rows } = self;
        rows
    }
}
