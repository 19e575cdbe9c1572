//! Keepers: the storage of the definitions and of the tables.
ghost use Rattle.std.specs.Prelude.{◌≡◌, ◌≤◌, ℕ, List, Bool, true, is_some, Some, OnOk, OnErr, IfOk};
ghost use Rattle.std.specs.declared.option.Option.{Option};
ghost use Rattle.std.specs.List.Sorted.{IsStrictlySortedBy};
ghost use Rattle.plain_values.specs.Order.{bytes_cmp};
ghost use Rattle.io_specs.specs.Faults.{Rose};
ghost use Rattle.lens_specs.specs.Keeping as keeping;
ghost use Rattle.lens_specs.specs.Keeping.{CanCommit, Follows, Stays, IfObserved, changed};
ghost use Rattle.table_keeper.specs.Asking.{AddsCall};
ghost use Rattle.table_keeper.specs.Changes.{change_view, kept_view, names_of};
ghost use Rattle.table_keeper.specs.declared.calls.Asked.TheVariants.{Attach, Commit, Load};
ghost use Rattle.table_keeper.specs.declared.calls.Call.{Call};
ghost use Rattle.table_keeper.specs.declared.keeper.KeepFault.TheVariants as fault;

use lens_values::{Name, NoMemory, Text, TryClone};
use row_sets::RowSet;
use signed_delta::TableDelta;
use std::alloc::Global;
use thiserror::Error;

/// Why a call of a keeper failed.
#[derive(Debug, PartialEq, Eq, Drop, Error)]
pub enum KeepFault {
    /// The keeper failed, and its count of faults rose.
    #[error("the keeper failed")]
    Failed,
    /// Memory ran out.
    #[error("memory ran out")]
    NoMemory,
}

impl From<NoMemory> for KeepFault {
    ghost from_gives = { λ _ e. e ≡ fault.NoMemory };

    fn from(_: NoMemory) -> KeepFault {
        KeepFault::NoMemory
    }
}

/// One change. It is made whole or not at all.
#[derive(Drop)]
pub enum Change {
    /// A definition's text, and the name of the table that it makes, if any.
    Define { text: Text, table: Option<Name> },
    /// The differences of tables.
    Rows { deltas: Vec<TableDelta> },
}

/// The rows of one table.
#[derive(Drop)]
pub struct KeptTable {
    /// The table's name.
    pub table: Name,
    /// Its rows.
    pub rows: RowSet,
}

impl TryClone for KeptTable {
    fn try_clone(&self, alloc: Global) -> Result<KeptTable, NoMemory> {
        let rows = self.rows.copy(alloc)?;
        Ok(KeptTable {
            table: self.table,
            rows,
        })
    }
}

/// All that is kept.
#[derive(Drop)]
pub struct Kept {
    /// The texts of the definitions, in order.
    pub definitions: Vec<Text>,
    /// The tables, in rising order of names.
    pub tables: Vec<KeptTable>,
}

impl Kept {
    /// Nothing is kept.
    pub fn nothing(alloc: Global) -> Kept
        ensures is { kept_view result ≡ keeping.nothing }
        ensures rising { IsStrictlySortedBy bytes_cmp (names_of result.tables.items) }
    {
        Kept {
            definitions: Vec::new(alloc),
            tables: Vec::new(alloc),
        }
    }
}

/// A place that keeps definitions and rows.
pub trait Keeper {
    /// What is kept, where the keeper tells it.
    ghost contents: { Self → Option keeping.Kept };

    /// Where the contents lie, as it was chosen.
    ghost place: { Self → Option (List ℕ) };

    /// Whether the contents stay where another place is chosen.
    ghost stays: { Bool };

    /// How often it has failed.
    ghost faults: { Self → ℕ };

    /// The calls so far, where it tells them.
    ghost calls: { Self → Option (List Call) };

    /// Chooses where the contents lie.
    fn attach(&mut self, alloc: Global, new_place: &str) -> Result<(), KeepFault>
        ensures chosen { OnOk result (place self.new ≡ Some new_place.now) }
        ensures err { OnErr result (place self.new ≡ place self.old) }
        ensures kept_at_fault { OnErr result (Stays (contents self.old) (contents self.new)) }
        ensures kept { stays ≡ true → Stays (contents self.old) (contents self.new) }
        ensures told { is_some (contents self.new) ≡ is_some (contents self.old) }
        ensures call { AddsCall (calls self.old) (calls self.new) Attach result
            (faults self.new) }
        ensures later { faults self.old ≤ faults self.new }
        ensures failed { result ≡ Err KeepFault.Failed → Rose (faults self.old) (faults self.new) };

    /// Gives what is kept, with its tables in rising order of names.
    fn load(&mut self, alloc: Global) -> Result<Kept, KeepFault>
        ensures ok { IfOk result (λ kept. IfObserved (contents self.old) (kept_view kept)) }
        ensures rising { IfOk result (λ kept. IsStrictlySortedBy bytes_cmp
            (names_of kept.tables.items)) }
        ensures kept { Stays (contents self.old) (contents self.new) }
        ensures call { AddsCall (calls self.old) (calls self.new) Load result
            (faults self.new) }
        ensures place { place self.new ≡ place self.old }
        ensures later { faults self.old ≤ faults self.new }
        ensures failed { result ≡ Err KeepFault.Failed → Rose (faults self.old) (faults self.new) };

    /// Makes the change, whole, or leaves what is kept.
    fn commit(&mut self, alloc: Global, change: &Change) -> Result<(), KeepFault>
        requires { CanCommit (change_view change.now) (contents self.old) }
        ensures ok { OnOk result (Follows (λ old new. new ≡ changed (change_view change.now) old)
            (contents self.old) (contents self.new)) }
        ensures err { OnErr result (Stays (contents self.old) (contents self.new)) }
        ensures call { AddsCall (calls self.old) (calls self.new) Commit result
            (faults self.new) }
        ensures place { place self.new ≡ place self.old }
        ensures later { faults self.old ≤ faults self.new }
        ensures failed { result ≡ Err KeepFault.Failed → Rose (faults self.old) (faults self.new) };
}
