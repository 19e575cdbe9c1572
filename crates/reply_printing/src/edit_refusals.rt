//! Replies that reject an edit, alone or at its place in a batch. `NoMemory` is the only error.
ghost use Rattle.std.specs.Prelude.{◌≡◌, IfOk};
ghost use Rattle.server_specs.specs.Answer.{text};
ghost use Rattle.server_specs.specs.EditRefusal as refusals;
ghost use Rattle.reply_printing.specs.Answers.{list_view, refused_in};

use crate::answer::RowList;
use crate::refusals::{Part, refused_text};
use crate::reply::Reply;
use fd_tree::Edge;
use lens_values::{Name, NoMemory, Row};
use line_texts::Member;
use std::alloc::Global;

/// The line that refuses a name that no table and no view has.
pub(crate) fn unknown_name_text(
    alloc: Global,
    edit: Option<usize>,
    name: &Name,
) -> Result<Reply, NoMemory>
    ensures { IfOk result (λ reply.
        reply ≡ text (refused_in edit (refusals.unknown_name name.now))) }
{
    refused_text(
        alloc,
        &[
            Part::Edit(edit),
            Part::Error(22),
            Part::Name("name", name),
            Part::NotOk,
        ],
    )
}

/// The line that rejects a list of rows, because the element at `index` is no row of the columns.
pub(crate) fn bad_row_text(
    alloc: Global,
    edit: Option<usize>,
    list: RowList,
    index: usize,
    col: &Member,
) -> Result<Reply, NoMemory>
    ensures { IfOk result (λ reply.
        reply ≡ text (refused_in edit (refusals.bad_row (list_view list) index col.now))) }
{
    refused_text(
        alloc,
        &[
            Part::Member("col", col),
            Part::Edit(edit),
            Part::Error(40),
            Part::Number("index", index as u64),
            Part::List(list),
            Part::NotOk,
        ],
    )
}

/// The line that refuses a change for the version that it rests on: the last change of the view's
/// tables, and the version now.
pub(crate) fn stale_text(
    alloc: Global,
    edit: Option<usize>,
    changed_at: u64,
    version: u64,
) -> Result<Reply, NoMemory>
    ensures { IfOk result (λ reply.
        reply ≡ text (refused_in edit (refusals.stale changed_at version))) }
{
    refused_text(
        alloc,
        &[
            Part::Number("changed_at", changed_at),
            Part::Edit(edit),
            Part::Error(41),
            Part::NotOk,
            Part::Number("version", version),
        ],
    )
}

/// The line that refuses a row that the view's predicate refuses.
pub(crate) fn off_predicate_text(
    alloc: Global,
    edit: Option<usize>,
    row: &Row,
) -> Result<Reply, NoMemory>
    ensures { IfOk result (λ reply.
        reply ≡ text (refused_in edit (refusals.off_predicate row.now))) }
{
    refused_text(
        alloc,
        &[
            Part::Edit(edit),
            Part::Error(42),
            Part::NotOk,
            Part::Row(row),
        ],
    )
}

/// The line that refuses rows of which two break a dependency.
pub(crate) fn clash_text<'a>(
    alloc: Global,
    edit: Option<usize>,
    edge: &'a Edge,
    first: &'a Row,
    second: &'a Row,
) -> Result<Reply, NoMemory>
    ensures { IfOk result (λ reply.
        reply ≡ text (refused_in edit (refusals.clash edge.now first.now second.now))) }
{
    refused_text(
        alloc,
        &[
            Part::Edge(edge),
            Part::Edit(edit),
            Part::Error(43),
            Part::NotOk,
            Part::Rows(first, second),
        ],
    )
}
