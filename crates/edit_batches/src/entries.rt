//! Differences of tables that can be taken back.
ghost use Rattle.std.specs.Prelude.{◌≡◌, IfOk, map};
ghost use Rattle.signed_delta.specs.Tables.{table_delta};
ghost use Rattle.lens_specs.specs.Lens.{Tables};
ghost use Rattle.lens_specs.specs.TableDeltas.{AreDeltas, LeadTo, inverted};
ghost use Rattle.edit_batches.specs.Chains.{Chain};
ghost use Rattle.edit_batches.specs.Histories.{deltas_of};

use crate::composing::compose;
use lens_values::NoMemory;
use signed_delta::TableDelta;
use std::alloc::Global;
use std::marker::Model;

/// Differences of tables. A contract sees them as the definitions speak of them.
#[derive(Drop)]
pub struct Deltas {
    list: Vec<TableDelta>,
}

impl Model for Deltas {
    ghost use Rattle.std.specs.Prelude.{List, map};
    ghost use Rattle.lens_specs.specs.Delta as spec;
    ghost use Rattle.edit_batches.specs.DeltasCode.{coded_deltas};

    ghost Value = { List spec.TableDelta };

    ghost coded = { coded_deltas };

    ghost use Rattle.signed_delta.specs.Tables.{table_delta};

    ghost view = { λ d. map table_delta d.list.items };
}

impl Deltas {
    /// These differences.
    pub fn new(list: Vec<TableDelta>) -> Deltas
        ensures { result ≡ map table_delta list.items }
    {
        Deltas { list }
    }

    /// The differences, one after another.
    pub fn as_slice(&self) -> &[TableDelta]
        ensures { map table_delta result.now ≡ self.now }
    {
        &self.list
    }
}

/// What one edit or one change made of the tables.
#[derive(Drop)]
pub struct Entry {
    /// The differences of the tables.
    pub deltas: Deltas,
}

/// What all entries do, one after another. Halves are composed, so that each row is looked at as
/// often as entries can be halved.
pub fn compose_all(alloc: Global, entries: &[Entry]) -> Result<Vec<TableDelta>, NoMemory>
    ensures leads { IfOk result (λ all. (a c : Tables) → Chain (map deltas_of entries.now) a c
        → LeadTo (map table_delta all.items) a c) }
    ensures deltas { IfOk result (λ all. AreDeltas (map table_delta all.items)) }
{
    match entries {
        [] => Ok(Vec::new(alloc)),
        [one] => compose(alloc, one.deltas.as_slice(), &[]),
        [one, next] => compose(alloc, one.deltas.as_slice(), next.deltas.as_slice()),
        _ => {
            let (front, back) = entries.split_at(entries.len() / 2);
            let first = compose_all(alloc, front)?;
            let second = compose_all(alloc, back)?;
            compose(alloc, &first, &second)
        }
    }
}

/// The inverse of what an entry does.
pub fn inverted(alloc: Global, entry: &Entry) -> Result<Vec<TableDelta>, NoMemory>
    ensures { IfOk result (λ back. map table_delta back.items ≡ inverted entry.now.deltas) }
{
    let mut back = Vec::new(alloc);
    for change in entry.deltas.as_slice() {
        back.push(TableDelta {
            table: change.table,
            delta: change.delta.copy(alloc)?.invert(),
        })?;
    }
    Ok(back)
}
