//! Descriptions of views and lists of definitions, printed token by token.
ghost use Rattle.std.specs.Prelude.{◌≡◌, [], ◌∷◌, OnOk};
ghost use Rattle.std.specs.FinMap as finmap;
ghost use Rattle.grammar_specs.specs.Printing.{printed_formula};
ghost use Rattle.lens_pred.specs.View.{formula_view, predicate_view};
ghost use Rattle.server_specs.specs.Answer.{columns_data, conjuncts_data, edges_data, kind_text, texts_data};
ghost use Rattle.reply_printing.specs.Printing.{Adds, array, data_tokens, key, object, string};

use crate::printing::{print_sides, print_text};
use fd_tree::Edge;
use json_text::JsonText;
use lens_pred::Formula;
use lens_values::{Columns, Kind, NoMemory, Text};
use std::alloc::Global;
use view_lang::print_formula;

/// A member that is an object from the columns to the texts of their kinds.
pub(crate) fn print_columns(
    out: &mut JsonText,
    name: &str,
    columns: &Columns,
) -> Result<(), NoMemory>
    ensures { OnOk result (Adds out.old out.new
        (key name.now ∷ data_tokens (object (columns_data (finmap.entries columns.now))))) }
{
    out.key(name)?;
    print_kinds(out, columns)?;
    Ok(())
}

fn print_kinds(out: &mut JsonText, columns: &Columns) -> Result<(), NoMemory>
    ensures { OnOk result (Adds out.old out.new
        (data_tokens (object (columns_data (finmap.entries columns.now))))) }
{
    out.begin_object()?;
    for column in columns.pairs() {
        print_text(out, column.0.as_str(), kind_text(column.1))?;
    }
    out.end_object()?;
    Ok(())
}

fn kind_text(kind: Kind) -> &'static str
    ensures { result.now ≡ kind_text kind }
{
    match kind {
        Kind::Int => "int",
        Kind::Text => "text",
        Kind::Flag => "bool",
        Kind::IntOrNull => "int null",
        Kind::TextOrNull => "text null",
        Kind::FlagOrNull => "bool null",
    }
}

/// A member that is an array of edges.
pub(crate) fn print_edges(out: &mut JsonText, name: &str, edges: &[Edge]) -> Result<(), NoMemory>
    ensures { OnOk result (Adds out.old out.new
        (key name.now ∷ data_tokens (array (edges_data edges.now)))) }
{
    out.key(name)?;
    print_edge_list(out, edges)?;
    Ok(())
}

fn print_edge_list(out: &mut JsonText, edges: &[Edge]) -> Result<(), NoMemory>
    ensures { OnOk result (Adds out.old out.new (data_tokens (array (edges_data edges.now)))) }
{
    out.begin_array()?;
    for edge in edges {
        print_sides(out, edge)?;
    }
    out.end_array()?;
    Ok(())
}

/// A member that is an array of the printed texts of conjuncts.
pub(crate) fn print_conjuncts(
    alloc: Global,
    out: &mut JsonText,
    name: &str,
    conjuncts: &[Formula],
) -> Result<(), NoMemory>
    ensures { OnOk result (Adds out.old out.new
        (key name.now ∷ data_tokens (array (conjuncts_data (predicate_view conjuncts.now))))) }
{
    out.key(name)?;
    print_conjunct_list(alloc, out, conjuncts)?;
    Ok(())
}

fn print_conjunct_list(
    alloc: Global,
    out: &mut JsonText,
    conjuncts: &[Formula],
) -> Result<(), NoMemory>
    ensures { OnOk result (Adds out.old out.new
        (data_tokens (array (conjuncts_data (predicate_view conjuncts.now))))) }
{
    out.begin_array()?;
    for conjunct in conjuncts {
        print_conjunct(alloc, out, conjunct)?;
    }
    out.end_array()?;
    Ok(())
}

fn print_conjunct(alloc: Global, out: &mut JsonText, conjunct: &Formula) -> Result<(), NoMemory>
    ensures { OnOk result (Adds out.old out.new
        (string (printed_formula (formula_view conjunct.now)) ∷ [])) }
{
    let text = print_formula(alloc, conjunct)?;
    out.string(text.as_str())?;
    Ok(())
}

/// A member that is an array of texts.
pub(crate) fn print_texts(out: &mut JsonText, name: &str, texts: &[Text]) -> Result<(), NoMemory>
    ensures { OnOk result (Adds out.old out.new
        (key name.now ∷ data_tokens (array (texts_data texts.now)))) }
{
    out.key(name)?;
    print_text_list(out, texts)?;
    Ok(())
}

fn print_text_list(out: &mut JsonText, texts: &[Text]) -> Result<(), NoMemory>
    ensures { OnOk result (Adds out.old out.new (data_tokens (array (texts_data texts.now)))) }
{
    out.begin_array()?;
    for text in texts {
        out.string(text.as_str())?;
    }
    out.end_array()?;
    Ok(())
}
