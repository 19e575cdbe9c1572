//! The changes of the rows of one table in memory.
ghost use Rattle.std.specs.Prelude.{◌≡◌, OnOk};
ghost use Rattle.lens_specs.specs.Delta.{new_view};
ghost use Rattle.memory_store.specs.InMemory.{with_rows, without_rows};

use lens_values::{NoMemory, Row};
use row_sets::RowTree;
use signed_delta::Delta;
use std::alloc::Global;

/// Makes the difference. After `NoMemory` it may be made in part.
pub fn make(tree: &mut RowTree, alloc: Global, delta: &Delta) -> Result<(), NoMemory>
    ensures { OnOk result (tree.new ≡ new_view tree.old delta.now) }
{
    remove_each(tree, delta.remove().rows());
    insert_each(tree, alloc, delta.add().rows())
}

// Inserts the rows. After `NoMemory` some of them are there.
fn insert_each(tree: &mut RowTree, alloc: Global, rows: &[Row]) -> Result<(), NoMemory>
    ensures { OnOk result (tree.new ≡ with_rows rows.now tree.old) }
{
    for row in rows {
        tree.insert(row.copy(alloc)?)?;
    }
    Ok(())
}

// Removes the rows that are there.
fn remove_each(tree: &mut RowTree, rows: &[Row])
    ensures { tree.new ≡ without_rows rows.now tree.old }
{
    for row in rows {
        tree.remove(row);
    }
}
