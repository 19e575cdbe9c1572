//! Plans: the answer to a request, and the change that the database is to make before it gives it.
ghost use Rattle.std.specs.Prelude.{◌≡◌, None};
ghost use Rattle.database.specs.Plans.{change_of, definition_of};

use lens_values::{Name, Text};
use opened_view::LastChanges;
use reply_printing::Answer;
use signed_delta::TableDelta;
use table_keeper::Change;
use view_catalog::Prepared;

/// What a change does to the changes that can be undone.
#[derive(Clone, Copy)]
pub enum PastStep {
    /// Nothing: it is a definition.
    Stays,
    /// It is one more.
    Gains,
    /// It takes the last one back.
    Loses,
}

/// What a change makes of the definitions or of the tables.
#[derive(Drop)]
pub enum StagedChange {
    /// A definition is taken.
    Define {
        /// Its text, for the keeper.
        text: Text,
        /// The name of the table that it makes, if any.
        table: Option<Name>,
        /// What the catalogue takes.
        prepared: Prepared,
    },
    /// Tables differ.
    Rows {
        /// The differences.
        deltas: Vec<TableDelta>,
    },
}

impl StagedChange {
    /// What the keeper makes of its contents, and the definition that the catalogue takes, if any.
    pub fn into_parts(self) -> (Change, Option<Prepared>)
        ensures change { result.0 ≡ change_of self }
        ensures definition { result.1 ≡ definition_of self }
    {
        match self {
            StagedChange::Define {
                text,
                table,
                prepared,
            } => (Change::Define { text, table }, Some(prepared)),
            StagedChange::Rows { deltas } => (Change::Rows { deltas }, None),
        }
    }
}

/// A change that is prepared. Once the tables have staged it, to make it takes no memory.
#[derive(Drop)]
pub struct Staged {
    /// What it makes of the definitions or of the tables.
    pub change: StagedChange,
    /// The last changes after a definition. `None` if rows change: the commit then moves the last
    /// change of each changed table on.
    pub last: Option<LastChanges>,
    /// What it does to the changes that can be undone.
    pub past: PastStep,
}

/// The answer to a request, and the change that the database makes before it gives the answer.
#[derive(Drop)]
pub struct Plan {
    /// The answer.
    pub answer: Answer,
    /// The change, if there is one.
    pub staged: Option<Staged>,
}

impl Plan {
    /// A plan that gives the answer and changes nothing.
    pub fn unchanged(answer: Answer) -> Plan
        ensures answer { result.answer ≡ answer }
        ensures staged { result.staged ≡ None }
    {
        Plan {
            answer,
            staged: None,
        }
    }
}
