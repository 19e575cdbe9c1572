//! The lines of refusals: the members of each, printed in their order. `NoMemory` is the only error.
ghost use Rattle.std.specs.Prelude.{◌≡◌, IfOk, OnOk};
ghost use Rattle.server_specs.specs.Answer as spec;
ghost use Rattle.reply_printing.specs.Answers.{list_view};
ghost use Rattle.reply_printing.specs.Printing.{Adds, json_line, object, place_tokens};
ghost use Rattle.reply_printing.specs.Refusals.{part_tokens, parts_data, parts_tokens};
ghost use Rattle.view_limits.specs.Views.{limit_view, side_view};

use crate::answer::RowList;
use crate::printing::{
    begun, ended, print_edge, print_flag, print_name, print_names, print_number, print_pair,
    print_row, print_text,
};
use crate::reply::Reply;
use fd_tree::Edge;
use json_text::JsonText;
use lens_values::{Name, Names, NoMemory, Row};
use line_texts::Member;
use std::alloc::Global;
use view_limits::{Limit, Side};

/// A member of a refusal. Those that are not given a name have one of their own.
#[derive(Drop)]
pub(crate) enum Part<'a> {
    /// The number of the refusal, under `error`.
    Error(u64),
    /// That nothing was done, under `ok`.
    NotOk,
    /// The place of an edit in its batch, under `edit`, if it is one of a batch.
    Edit(Option<usize>),
    /// A number.
    Number(&'static str, u64),
    /// A name.
    Name(&'static str, &'a Name),
    /// Names, in their order.
    Names(&'static str, &'a Names),
    /// The name of a member.
    Member(&'static str, &'a Member),
    /// The member that holds a list of rows, under `list`.
    List(RowList),
    /// A side of a join, under `side`.
    Side(Side),
    /// What is too large, under `what`.
    What(Limit),
    /// The sides of a dependency, under `edge`.
    Edge(&'a Edge),
    /// A row, under `row`.
    Row(&'a Row),
    /// Two rows, under `rows`.
    Rows(&'a Row, &'a Row),
}

/// The line of a refusal with these members.
pub(crate) fn refused_text(alloc: Global, parts: &[Part<'_>]) -> Result<Reply, NoMemory>
    ensures { IfOk result (λ reply. reply ≡ json_line (object (parts_data parts.now))) }
{
    let mut out = begun(alloc)?;
    print_parts(&mut out, parts)?;
    ended(out)
}

/// The line of a refusal that names a table or a column as `name`.
pub(crate) fn refuse_name(alloc: Global, number: u64, name: &Name) -> Result<Reply, NoMemory>
    ensures { IfOk result (λ reply. reply ≡ json_line (spec.error_with_name number name.now)) }
{
    refused_text(
        alloc,
        &[Part::Error(number), Part::Name("name", name), Part::NotOk],
    )
}

/// The line of a refusal that names a column as `col`.
pub(crate) fn refuse_column(alloc: Global, number: u64, col: &Name) -> Result<Reply, NoMemory>
    ensures { IfOk result (λ reply. reply ≡ json_line (spec.error_with_column number col.now)) }
{
    refused_text(
        alloc,
        &[Part::Name("col", col), Part::Error(number), Part::NotOk],
    )
}

fn print_parts(out: &mut JsonText, parts: &[Part<'_>]) -> Result<(), NoMemory>
    ensures { OnOk result (Adds out.old out.new (parts_tokens parts.now)) }
{
    for part in parts {
        print_part(out, part)?;
    }
    Ok(())
}

fn print_part(out: &mut JsonText, part: &Part<'_>) -> Result<(), NoMemory>
    ensures { OnOk result (Adds out.old out.new (part_tokens part.now)) }
{
    match part {
        Part::Error(number) => print_number(out, "error", *number),
        Part::NotOk => print_flag(out, "ok", false),
        Part::Edit(edit) => print_place(out, *edit),
        Part::Number(name, number) => print_number(out, name, *number),
        Part::Name(name, value) => print_name(out, name, value),
        Part::Names(name, value) => print_names(out, name, value),
        Part::Member(name, value) => print_text(out, name, value.as_str()),
        Part::List(list) => print_text(out, "list", list_word(*list)),
        Part::Side(side) => print_text(out, "side", side_word(*side)),
        Part::What(what) => print_text(out, "what", limit_word(*what)),
        Part::Edge(edge) => print_edge(out, "edge", edge),
        Part::Row(row) => print_row(out, "row", row),
        Part::Rows(first, second) => print_pair(out, "rows", first, second),
    }
}

fn print_place(out: &mut JsonText, edit: Option<usize>) -> Result<(), NoMemory>
    ensures { OnOk result (Adds out.old out.new (place_tokens edit)) }
{
    match edit {
        Some(place) => print_number(out, "edit", place as u64),
        None => Ok(()),
    }
}

fn list_word(list: RowList) -> &'static str
    ensures { result.now ≡ spec.list_word (list_view list) }
{
    match list {
        RowList::Rows => "rows",
        RowList::Remove => "remove",
        RowList::Add => "add",
    }
}

fn side_word(side: Side) -> &'static str
    ensures { result.now ≡ spec.side_word (side_view side) }
{
    match side {
        Side::Left => "left",
        Side::Right => "right",
    }
}

fn limit_word(what: Limit) -> &'static str
    ensures { result.now ≡ spec.limit_word (limit_view what) }
{
    match what {
        Limit::Columns => "columns",
        Limit::Lens => "lens",
        Limit::Predicate => "predicate",
        Limit::Nesting => "nesting",
        Limit::Tables => "tables",
        Limit::Views => "views",
    }
}
