//! The contents of a keeper, and the changes to them.
ghost use Rattle.std.specs.Prelude.{◌≡◌, ◌++◌, ◌∷◌, [], IfOk, OnOk, OnErr, Some, false, is_some};
ghost use Rattle.std.specs.FinMap as finmap;
ghost use Rattle.lens_specs.specs.Keeping as keeping;
ghost use Rattle.lens_specs.specs.Keeping.{CanChange, changed};
ghost use Rattle.table_keeper.specs.Changes.{change_view, kept_view};
ghost use Rattle.table_keeper.specs.Places.{Rise};

use crate::keeper::{Change, Kept};
use crate::tables::{add_table, change_tables};
use lens_values::{Name, NoMemory, Text, copied};
use std::alloc::Global;

/// Makes a change, whole or not at all.
pub fn make(kept: &mut Kept, alloc: Global, change: &Change) -> Result<(), NoMemory>
    requires rising { Rise kept.old.tables.items }
    requires can { CanChange (change_view change.now) (kept_view kept.old) }
    ensures rising { Rise kept.new.tables.items }
    ensures ok { OnOk result (kept_view kept.new
        ≡ changed (change_view change.now) (kept_view kept.old)) }
    ensures err { OnErr result (kept_view kept.new ≡ kept_view kept.old) }
{
    match change {
        Change::Define { text, table } => define(kept, alloc, text, *table),
        Change::Rows { deltas } => change_tables(&mut kept.tables, alloc, deltas),
    }
}

// Adds a definition, and the table that it makes, if any.
fn define(kept: &mut Kept, alloc: Global, text: &Text, table: Option<Name>) -> Result<(), NoMemory>
    requires rising { Rise kept.old.tables.items }
    requires can { CanChange (keeping.define text.now table) (kept_view kept.old) }
    ensures rising { Rise kept.new.tables.items }
    ensures ok { OnOk result (kept_view kept.new
        ≡ changed (keeping.define text.now table) (kept_view kept.old)) }
    ensures err { OnErr result (kept_view kept.new ≡ kept_view kept.old) }
{
    match table {
        None => add_text(&mut kept.definitions, alloc, text),
        Some(name) => define_table(kept, alloc, text, name),
    }
}

// Adds a copy of the text at the end.
fn add_text(texts: &mut Vec<Text>, alloc: Global, text: &Text) -> Result<(), NoMemory>
    ensures ok { OnOk result (texts.new.items ≡ texts.old.items ++ text.now ∷ []) }
    ensures err { OnErr result (texts.new.items ≡ texts.old.items) }
{
    texts.push(text.copy(alloc)?)?;
    Ok(())
}

// Adds a definition that makes a table. Memory for its text is reserved before the table is made.
fn define_table(kept: &mut Kept, alloc: Global, text: &Text, name: Name) -> Result<(), NoMemory>
    requires rising { Rise kept.old.tables.items }
    requires can { CanChange (keeping.define text.now (Some name)) (kept_view kept.old) }
    ensures rising { Rise kept.new.tables.items }
    ensures ok { OnOk result (kept_view kept.new
        ≡ changed (keeping.define text.now (Some name)) (kept_view kept.old)) }
    ensures err { OnErr result (kept_view kept.new ≡ kept_view kept.old) }
{
    let text = text.copy(alloc)?;
    kept.definitions.reserve(1)?;
    add_table(&mut kept.tables, alloc, name)?;
    kept.definitions.push_reserved(text);
    Ok(())
}

/// A copy of the contents.
pub fn copied_contents(alloc: Global, kept: &Kept) -> Result<Kept, NoMemory>
    ensures texts { IfOk result (λ copy. copy.definitions.items ≡ kept.now.definitions.items) }
    ensures tables { IfOk result (λ copy. copy.tables.items ≡ kept.now.tables.items) }
{
    let definitions = copied(alloc, &kept.definitions)?;
    let tables = copied(alloc, &kept.tables)?;
    Ok(Kept {
        definitions,
        tables,
    })
}
