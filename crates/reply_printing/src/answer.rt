//! Answers, and the line of each.
ghost use Rattle.std.specs.Prelude.{◌≡◌, IfOk, Some};
ghost use Rattle.server_specs.specs.Answer.{text, told};
ghost use Rattle.reply_printing.specs.Answers.{answer_view, edit_refusal_view, refused_in};

use crate::edit_refusals::{
    bad_row_text, clash_text, off_predicate_text, stale_text, unknown_name_text,
};
use crate::lists::{Changes, Edges, Texts};
use crate::refusals::{Part, refuse_column, refuse_name, refused_text};
use crate::reply::{
    Reply, long_reply, memory_reply, not_json_reply, nothing_to_undo_reply, store_fault_reply,
};
use crate::results::{
    changed_text, defined_text, described_text, exported_text, listed_text, shown_text,
};
use fd_tree::Edge;
use lens_pred::Formulas;
use lens_values::{Columns, Name, Names, NoMemory, Row};
use line_texts::{CsvText, Member};
use row_sets::RowSet;
use std::alloc::Global;
use view_limits::{Limit, Side};

/// One of the lists of rows in a request.
#[derive(Clone, Copy)]
pub enum RowList {
    /// The rows of a put.
    Rows,
    /// The rows to remove.
    Remove,
    /// The rows to add.
    Add,
}

/// Why an edit of a view is refused.
#[derive(Drop)]
pub enum EditRefusal {
    /// No table and no view has the name.
    UnknownName {
        name: Name,
    },
    /// The first element of a list that is no row of the columns, and its least wrong name.
    BadRow {
        list: RowList,
        index: usize,
        col: Member,
    },
    /// The change rests on a version before the last change of the view's tables, or on one that is
    /// yet to come; the version of that last change, and the one now.
    Stale {
        changed_at: u64,
        version: u64,
    },
    /// The least row of the new view that the view's predicate refuses.
    OffPredicate {
        row: Row,
    },
    /// The first dependency that the rows of the new view break, and the least two rows that break
    /// it, in order.
    Clash {
        edge: Edge,
        first: Row,
        second: Row,
    },
}

/// The answer to a line.
#[derive(Drop)]
pub enum Answer {
    /// A definition was taken; the version after it.
    Defined {
        version: u64,
    },
    /// The rows of a view, and the version at which they were read.
    Shown {
        rows: RowSet,
        version: u64,
    },
    /// What a put, an import, an edit, a batch or an undo changed, and the version after it; or what a
    /// preview would change, and the version now.
    Changed {
        changed: Changes,
        version: u64,
    },
    /// What a view is: its columns, the tree of its dependencies, its predicate and the tables
    /// under it; and the version.
    Described {
        columns: Columns,
        edges: Edges,
        conjuncts: Formulas,
        tables: Names,
        version: u64,
    },
    /// The definitions as they were sent, and the version.
    Listed {
        definitions: Texts,
        version: u64,
    },
    /// Memory ran out.
    Memory,
    /// The line is too long.
    TooLong,
    /// The line is no JSON.
    NotJson,
    /// The least member that is missing, unknown or of the wrong shape.
    BadRequest {
        member: Member,
    },
    /// The text of the definition goes wrong at this byte, or ends there too early.
    Syntax {
        at: usize,
    },
    /// A table or a view has the name already.
    NameTaken {
        name: Name,
    },
    /// No table and no view has the name.
    UnknownName {
        name: Name,
    },
    /// No column of the table or of the source has the name.
    UnknownColumn {
        name: Name,
    },
    /// The column has two kinds in a join, or its default has another kind than the column.
    KindClash {
        name: Name,
    },
    /// The dependencies are no tree: two sides that do not fit.
    NotTree {
        a: Names,
        b: Names,
    },
    /// The predicate compares the column with another kind.
    PredKind {
        name: Name,
    },
    /// The least determined column that a conjunct of the source mentions, of those that are not
    /// steady.
    SourceMentionsOutput {
        col: Name,
    },
    /// No dependency has the given columns as its left side and the one to drop on its right, or
    /// this stands in a left side.
    NoSuchDependency {
        col: Name,
    },
    /// The place of the first conjunct that mentions the column to drop beside another, from 0.
    MixedConjunct {
        index: usize,
    },
    /// The predicate refuses the default of the dropped column.
    DefaultRefused,
    /// The least column of a join's right side that the shared columns do not determine.
    NotDetermined {
        col: Name,
    },
    /// The least determined column that a conjunct of this side of a join mentions, of those that
    /// are not steady.
    SideMentionsOutput {
        side: Side,
        col: Name,
    },
    /// The least table that both sides of a join have.
    TableTwice {
        name: Name,
    },
    /// The source has a column of the new name already.
    ColumnTaken {
        name: Name,
    },
    /// This is too large.
    TooLarge {
        what: Limit,
    },
    /// The first element of a list that is no row of the columns, and its least wrong name.
    BadRow {
        list: RowList,
        index: usize,
        col: Member,
    },
    /// The change rests on a version before the last change of the view's tables, or on one that is
    /// yet to come; the version of that last change, and the one now.
    Stale {
        changed_at: u64,
        version: u64,
    },
    /// The least row of the new view that the view's predicate refuses.
    OffPredicate {
        row: Row,
    },
    /// The first dependency that the rows of the new view break, and the least two rows that break
    /// it, in order.
    Clash {
        edge: Edge,
        first: Row,
        second: Row,
    },
    /// The first edit of a batch that is refused, its place from 0, and why.
    InEdit {
        edit: usize,
        refusal: EditRefusal,
    },
    /// No change is left that can be undone.
    NothingToUndo,
    /// The rows of a view as CSV, and the version at which they were read.
    Exported {
        csv: CsvText,
        version: u64,
    },
    /// The least column of the view that may be null. CSV has no null.
    NullableColumn {
        col: Name,
    },
    /// The place of the first wrong record of an import, from 0; the first record is the header.
    BadRecord {
        place: usize,
    },
    /// The store failed.
    StoreFault,
}

impl EditRefusal {
    /// The answer to a put, an import, an edit or a preview that is refused so.
    pub fn into_answer(self) -> Answer
        ensures { answer_view result ≡ told (edit_refusal_view self) }
    {
        match self {
            EditRefusal::UnknownName { name } => Answer::UnknownName { name },
            EditRefusal::BadRow { list, index, col } => Answer::BadRow { list, index, col },
            EditRefusal::Stale {
                changed_at,
                version,
            } => Answer::Stale {
                changed_at,
                version,
            },
            EditRefusal::OffPredicate { row } => Answer::OffPredicate { row },
            EditRefusal::Clash {
                edge,
                first,
                second,
            } => Answer::Clash {
                edge,
                first,
                second,
            },
        }
    }
}

// The line that refuses the edit at this place of a batch.
fn edit_text(alloc: Global, place: usize, refusal: &EditRefusal) -> Result<Reply, NoMemory>
    ensures { IfOk result (λ reply.
        reply ≡ text (refused_in (Some place) (edit_refusal_view refusal.now))) }
{
    let edit = Some(place);
    match refusal {
        EditRefusal::UnknownName { name } => unknown_name_text(alloc, edit, name),
        EditRefusal::BadRow { list, index, col } => bad_row_text(alloc, edit, *list, *index, col),
        EditRefusal::Stale {
            changed_at,
            version,
        } => stale_text(alloc, edit, *changed_at, *version),
        EditRefusal::OffPredicate { row } => off_predicate_text(alloc, edit, row),
        EditRefusal::Clash {
            edge,
            first,
            second,
        } => clash_text(alloc, edit, edge, first, second),
    }
}

/// The line of an answer, or `NoMemory`. What refuses a line is a table of the members of its
/// reply, in their order.
#[tactic(auto, unfolding(server_specs::specs::Answer::text))]
pub fn reply_text(alloc: Global, answer: &Answer) -> Result<Reply, NoMemory>
    ensures { IfOk result (λ reply. reply ≡ text (answer_view answer.now)) }
{
    match answer {
        Answer::Defined { version } => defined_text(alloc, *version),
        Answer::Shown { rows, version } => shown_text(alloc, rows, *version),
        Answer::Changed { changed, version } => changed_text(alloc, changed.as_slice(), *version),
        Answer::Described {
            columns,
            edges,
            conjuncts,
            tables,
            version,
        } => described_text(
            alloc,
            columns,
            edges.as_slice(),
            conjuncts.as_slice(),
            tables,
            *version,
        ),
        Answer::Listed {
            definitions,
            version,
        } => listed_text(alloc, definitions.as_slice(), *version),
        Answer::Memory => Ok(memory_reply()),
        Answer::TooLong => Ok(long_reply()),
        Answer::NotJson => Ok(not_json_reply()),
        Answer::BadRequest { member } => {
            refused_text(
                alloc,
                &[Part::Error(12), Part::Member("member", member), Part::NotOk],
            )
        }
        Answer::Syntax { at } => {
            refused_text(
                alloc,
                &[Part::Number("at", *at as u64), Part::Error(20), Part::NotOk],
            )
        }
        Answer::NameTaken { name } => refuse_name(alloc, 21, name),
        Answer::UnknownName { name } => unknown_name_text(alloc, None, name),
        Answer::UnknownColumn { name } => refuse_name(alloc, 23, name),
        Answer::KindClash { name } => refuse_name(alloc, 24, name),
        Answer::NotTree { a, b } => refused_text(
            alloc,
            &[
                Part::Names("a", a),
                Part::Names("b", b),
                Part::Error(25),
                Part::NotOk,
            ],
        ),
        Answer::PredKind { name } => refuse_name(alloc, 26, name),
        Answer::SourceMentionsOutput { col } => refuse_column(alloc, 27, col),
        Answer::NoSuchDependency { col } => refuse_column(alloc, 28, col),
        Answer::MixedConjunct { index } => {
            refused_text(
                alloc,
                &[
                    Part::Error(29),
                    Part::Number("index", *index as u64),
                    Part::NotOk,
                ],
            )
        }
        Answer::DefaultRefused => refused_text(alloc, &[Part::Error(30), Part::NotOk]),
        Answer::NotDetermined { col } => refuse_column(alloc, 31, col),
        Answer::SideMentionsOutput { side, col } => refused_text(
            alloc,
            &[
                Part::Name("col", col),
                Part::Error(32),
                Part::NotOk,
                Part::Side(*side),
            ],
        ),
        Answer::TableTwice { name } => refuse_name(alloc, 33, name),
        Answer::TooLarge { what } => {
            refused_text(alloc, &[Part::Error(34), Part::NotOk, Part::What(*what)])
        }
        Answer::ColumnTaken { name } => refuse_name(alloc, 35, name),
        Answer::BadRow { list, index, col } => bad_row_text(alloc, None, *list, *index, col),
        Answer::Stale {
            changed_at,
            version,
        } => stale_text(alloc, None, *changed_at, *version),
        Answer::OffPredicate { row } => off_predicate_text(alloc, None, row),
        Answer::Clash {
            edge,
            first,
            second,
        } => clash_text(alloc, None, edge, first, second),
        Answer::InEdit { edit, refusal } => edit_text(alloc, *edit, refusal),
        Answer::NothingToUndo => Ok(nothing_to_undo_reply()),
        Answer::BadRecord { place } => {
            refused_text(
                alloc,
                &[
                    Part::Error(45),
                    Part::NotOk,
                    Part::Number("record", *place as u64),
                ],
            )
        }
        Answer::Exported { csv, version } => exported_text(alloc, csv, *version),
        Answer::NullableColumn { col } => refuse_column(alloc, 46, col),
        Answer::StoreFault => Ok(store_fault_reply()),
    }
}
