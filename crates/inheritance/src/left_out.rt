//! The classes that the search leaves out.

ghost use Rattle.std.specs.Prelude.{◌≡◌, ◌↔◌, ℕ, IsTrue};
ghost use Rattle.inheritance.specs.Lines.{Ends};
ghost use Rattle.inheritance.specs.ScopedTables.{IsLeftOut, HasBaseLeftOut};

use crate::forests::Forest;
use crate::scoped_tables::ScopedTable;

/// Whether a class was not entered.
fn is_left_out(forest: &Forest, scoped_table: &ScopedTable, class: usize) -> bool
    ensures { IsTrue result ↔ IsLeftOut forest.now.bases.items scoped_table.now.entries.items class }
{
    class < forest.bases.len() && scoped_table.entry(class).is_none()
}

/// Whether the base of a class was not entered.
fn has_base_left_out(forest: &Forest, scoped_table: &ScopedTable, class: usize) -> bool
    ensures { IsTrue result ↔ HasBaseLeftOut forest.now.bases.items scoped_table.now.entries.items class }
{
    match forest.base(class) {
        None => false,
        Some(base) => is_left_out(forest, scoped_table, base),
    }
}

/// Whether each class that was not entered has a base that was not entered either: then the bases of none of them end. Takes time with
/// the number of classes.
pub(crate) fn is_complete(forest: &Forest, scoped_table: &ScopedTable) -> bool
    ensures { IsTrue result → (class : ℕ) → IsLeftOut forest.now.bases.items scoped_table.now.entries.items class → ¬ Ends forest.now.bases.items forest.now.most class }
{
    for class in 0..forest.bases.len() {
        if is_left_out(forest, scoped_table, class)
            && !has_base_left_out(forest, scoped_table, class)
        {
            return false;
        }
    }
    true
}
