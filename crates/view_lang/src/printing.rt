//! Prints definitions and formulas.
ghost use Rattle.std.specs.Prelude.{◌≡◌, [], ◌∷◌, ◌++◌, IfOk, OnOk, codes, map, string_bytes};
ghost use Rattle.grammar_specs.specs.Tokens.{word, open_paren, close_paren, comma};
ghost use Rattle.grammar_specs.specs.Printing.{part_of, all_parts, all_of_formula, any_alls, pred_of, predicate_written, dep_written, condition_written, operand_of, expr_written, definition_written, printed, printed_formula};
ghost use Rattle.grammar_specs.specs.Written.{literal, part_tokens, all_tokens, pred_tokens, column_tokens, columns_tokens, deps_tokens, where_tokens, operand_tokens, expr_tokens, written_tokens};
ghost use Rattle.lens_specs.specs.Predicate.{one_of};
ghost use Rattle.lens_pred.specs.View.{formula_view, list_view, predicate_view};
ghost use Rattle.view_lang.specs.DefViews.{definition_view};
ghost use Rattle.view_lang.specs.ExprViews.{expr_view};
ghost use Rattle.view_lang.specs.PrintAdds.{Adds};

mod printer;

use crate::definition::Definition;
use crate::expr::Expr;
use crate::printing::printer::Printer;
use crate::words::{join_word, kind_word};
use fd_closure::Dep;
use lens_pred::{Formula, Op, Values};
use lens_values::{Kind, Name, NoMemory, Value};
use std::alloc::Global;

/// The text of the definition, or `NoMemory`.
pub fn print(alloc: Global, definition: &Definition) -> Result<String, NoMemory>
    ensures { IfOk result (λ text. string_bytes text ≡ printed (definition_view definition.now)) }
{
    let mut out = Printer::new(alloc);
    print_definition(&mut out, definition)?;
    Ok(out.text)
}

/// The text of the formula by itself, or `NoMemory`.
pub fn print_formula(alloc: Global, formula: &Formula) -> Result<String, NoMemory>
    ensures { IfOk result (λ text. string_bytes text ≡ printed_formula (formula_view formula.now)) }
{
    let mut out = Printer::new(alloc);
    print_alone(&mut out, formula)?;
    Ok(out.text)
}

fn print_definition(out: &mut Printer, definition: &Definition) -> Result<(), NoMemory>
    ensures { OnOk result (Adds out.old out.new
        (written_tokens (definition_written (definition_view definition.now)))) }
{
    match definition {
        Definition::Table {
            name,
            cols,
            deps,
            pred,
        } => {
            out.word("table")?;
            out.name(name)?;
            print_columns(out, cols.pairs())?;
            print_deps(out, deps.as_slice())?;
            print_condition(out, pred.conjuncts())
        }
        Definition::View { name, expr } => {
            out.word("view")?;
            out.name(name)?;
            out.operator(Op::Eq)?;
            print_expr(out, expr)
        }
    }
}

// Columns in parentheses, with commas between them.
fn print_columns(out: &mut Printer, columns: &[(Name, Kind)]) -> Result<(), NoMemory>
    ensures { OnOk result (Adds out.old out.new
        (open_paren ∷ (columns_tokens columns.now ++ close_paren ∷ []))) }
{
    out.open()?;
    for (index, column) in columns.iter().enumerate() {
        out.comma_between(index)?;
        print_column(out, column)?;
    }
    out.close()
}

// The name, the word of the kind, and "null" behind it where the kind takes it.
fn print_column(out: &mut Printer, column: &(Name, Kind)) -> Result<(), NoMemory>
    ensures { OnOk result (Adds out.old out.new (column_tokens column.now)) }
{
    let (name, kind) = column;
    out.name(name)?;
    out.word(kind_word(*kind))?;
    if kind.is_nullable() {
        out.word("null")?;
    }
    Ok(())
}

// Dependencies behind "with", if there are any.
fn print_deps(out: &mut Printer, deps: &[Dep]) -> Result<(), NoMemory>
    ensures { OnOk result (Adds out.old out.new (deps_tokens (map dep_written deps.now))) }
{
    if deps.is_empty() {
        return Ok(());
    }
    out.word("with")?;
    for (index, dep) in deps.iter().enumerate() {
        out.comma_between(index)?;
        print_names(out, dep.left().as_slice())?;
        out.arrow()?;
        print_names(out, dep.right().as_slice())?;
    }
    Ok(())
}

// Conjuncts behind "where", if there are any.
fn print_condition(out: &mut Printer, conjuncts: &[Formula]) -> Result<(), NoMemory>
    ensures { OnOk result (Adds out.old out.new
        (where_tokens (condition_written (predicate_view conjuncts.now)))) }
{
    if conjuncts.is_empty() {
        return Ok(());
    }
    print_where(out, conjuncts)
}

// An expression by itself, with no parentheses around it.
#[cycle(print_exprs)]
fn print_expr(out: &mut Printer, expr: &Expr) -> Result<(), NoMemory>
    ensures { OnOk result (Adds out.old out.new (expr_tokens (expr_written (expr_view expr.now)))) }
{
    match expr {
        Expr::Named { name } => out.name(name),
        Expr::Select { pred, of } => {
            out.word("select")?;
            print_operand(out, "from", of)?;
            print_where(out, pred.conjuncts())
        }
        Expr::Drop { col, by, fill, of } => {
            out.word("drop")?;
            out.name(col)?;
            print_determined(out, by.as_slice(), fill)?;
            print_operand(out, "from", of)
        }
        Expr::Rename { col, to, of } => {
            out.word("rename")?;
            out.name(col)?;
            out.word("to")?;
            out.name(to)?;
            print_operand(out, "from", of)
        }
        Expr::Join { kind, left, right } => {
            print_operand(out, join_word(*kind), left)?;
            print_operand(out, "with", right)
        }
    }
}

// An operand behind a word: a name bare, every other operand in parentheses.
#[cycle(print_exprs)]
fn print_operand(out: &mut Printer, before: &str, expr: &Expr) -> Result<(), NoMemory>
    ensures { OnOk result (Adds out.old out.new
        (word before.now ∷ operand_tokens (operand_of (expr_view expr.now)))) }
{
    out.word(before)?;
    match expr {
        Expr::Named { name } => out.name(name),
        _ => {
            out.open()?;
            print_expr(out, expr)?;
            out.close()
        }
    }
}

fn print_names(out: &mut Printer, names: &[Name]) -> Result<(), NoMemory>
    ensures { OnOk result (Adds out.old out.new (map word names.now)) }
{
    for name in names {
        out.name(name)?;
    }
    Ok(())
}

// What determines a dropped column: columns, and the value where they determine none.
fn print_determined(out: &mut Printer, by: &[Name], fill: &Value) -> Result<(), NoMemory>
    ensures { OnOk result (Adds out.old out.new (word (codes "determined") ∷ word (codes "by")
        ∷ open_paren ∷ (map word by.now ++ comma ∷ literal fill.now ∷ close_paren ∷ []))) }
{
    out.word("determined")?;
    out.word("by")?;
    out.open()?;
    print_names(out, by)?;
    out.comma()?;
    out.literal(fill)?;
    out.close()
}

// Conjuncts behind "where": one by itself, several joined by "and".
fn print_where(out: &mut Printer, conjuncts: &[Formula]) -> Result<(), NoMemory>
    ensures { OnOk result (Adds out.old out.new
        (word (codes "where") ∷ pred_tokens (predicate_written (predicate_view conjuncts.now)))) }
{
    out.word("where")?;
    match conjuncts {
        [] => out.word("true"),
        [conjunct] => print_alone(out, conjunct),
        [_, _, ..] => print_all(out, conjuncts),
    }
}

// A formula by itself, with no parentheses around it.
fn print_alone(out: &mut Printer, formula: &Formula) -> Result<(), NoMemory>
    ensures { OnOk result (Adds out.old out.new
        (pred_tokens (pred_of (formula_view formula.now)))) }
{
    match formula {
        Formula::Or(members) => print_any(out, members.as_slice()),
        _ => print_disjunct(out, formula),
    }
}

// A member of an "and" or a "not".
#[cycle(print_formulas)]
fn print_part(out: &mut Printer, formula: &Formula) -> Result<(), NoMemory>
    ensures { OnOk result (Adds out.old out.new
        (part_tokens (part_of (formula_view formula.now)))) }
{
    match formula {
        Formula::True => out.word("true"),
        Formula::False => out.word("false"),
        Formula::Compare { col, op, value } => {
            out.name(col)?;
            out.operator(*op)?;
            out.literal(value)
        }
        Formula::CompareCols { col, op, other } => {
            out.name(col)?;
            out.operator(*op)?;
            out.name(other)
        }
        Formula::OneOf { col, values } => print_one_of(out, col, values),
        Formula::IsNull { col } => {
            out.name(col)?;
            out.word("is")?;
            out.word("null")
        }
        Formula::Not(inner) => {
            out.word("not")?;
            print_part(out, inner)
        }
        Formula::And(members) => {
            out.open()?;
            print_all(out, members.as_slice())?;
            out.close()
        }
        Formula::Or(members) => {
            out.open()?;
            print_any(out, members.as_slice())?;
            out.close()
        }
    }
}

// Members joined by "and".
#[cycle(print_formulas)]
fn print_all(out: &mut Printer, members: &[Formula]) -> Result<(), NoMemory>
    ensures { OnOk result (Adds out.old out.new
        (all_tokens (all_parts (list_view (predicate_view members.now))))) }
{
    if members.is_empty() {
        return out.word("true");
    }
    for (index, member) in members.iter().enumerate() {
        out.word_between(index, "and")?;
        print_part(out, member)?;
    }
    Ok(())
}

// A member of an "or".
#[cycle(print_formulas)]
fn print_disjunct(out: &mut Printer, formula: &Formula) -> Result<(), NoMemory>
    ensures { OnOk result (Adds out.old out.new
        (all_tokens (all_of_formula (formula_view formula.now)))) }
{
    match formula {
        Formula::And(members) => print_all(out, members.as_slice()),
        _ => print_part(out, formula),
    }
}

// Members joined by "or".
#[cycle(print_formulas)]
fn print_any(out: &mut Printer, members: &[Formula]) -> Result<(), NoMemory>
    ensures { OnOk result (Adds out.old out.new
        (pred_tokens (any_alls (list_view (predicate_view members.now))))) }
{
    if members.is_empty() {
        return out.word("false");
    }
    for (index, member) in members.iter().enumerate() {
        out.word_between(index, "or")?;
        print_disjunct(out, member)?;
    }
    Ok(())
}

// A column in a list of values.
fn print_one_of(out: &mut Printer, col: &Name, values: &Values) -> Result<(), NoMemory>
    ensures { OnOk result (Adds out.old out.new
        (part_tokens (part_of (one_of col.now values.now)))) }
{
    out.name(col)?;
    out.word("in")?;
    out.open()?;
    for (index, value) in values.as_slice().iter().enumerate() {
        out.comma_between(index)?;
        out.literal(value)?;
    }
    out.close()
}
