//! The damage of a store that does not open.
ghost use Rattle.std.specs.Prelude.{◌≡◌, IfOk, codes};
ghost use Rattle.serde_json.specs.Data.{member, no_members, object};
ghost use Rattle.serde_json.specs.View.{view};
ghost use Rattle.opening_specs.specs.Opening.{bad_row, clash_in, damage_data, damage_text};
ghost use Rattle.database_opening.specs.Openings.{damage_view};

use lens_values::{Name, NoMemory, Row};
use reply_printing::row_value;
use serde_json::{Value, json};
use std::alloc::Global;

/// Why a store does not open to a database: its first damage. The definitions come first, in their
/// order, and then the tables, by rising name.
#[derive(Debug, Drop)]
pub enum Damage {
    /// This definition, counted from 0, is rejected after those before it.
    Definition {
        index: usize,
    },
    /// This table is defined and not kept.
    Missing {
        table: Name,
    },
    /// This table is kept and not defined.
    Strange {
        table: Name,
    },
    /// This row does not fit the columns of its table, or the table's predicate rejects the row. It
    /// is the first such row in row order.
    BadRow {
        table: Name,
        row: Row,
    },
    /// These two rows of a table clash, the first pair at the first edge of its dependencies.
    ClashIn {
        table: Name,
        first: Row,
        second: Row,
    },
}

/// The line that tells the damage, with its newline.
pub fn damage_line(alloc: Global, damage: &Damage) -> Result<Vec<u8>, NoMemory>
    ensures { IfOk result (λ line. line.items ≡ damage_text (damage_view damage.now)) }
{
    let mut line = told_json(alloc, damage)?.to_vec(alloc)?;
    line.push(b'\n')?;
    Ok(line)
}

/// What the line tells, as JSON.
fn told_json(alloc: Global, damage: &Damage) -> Result<Value, NoMemory>
    ensures { IfOk result (λ json. view json
        ≡ object (member (codes "damaged") (damage_data (damage_view damage.now)) no_members)) }
{
    let damaged = damage_json(alloc, damage)?;
    Ok(json!(in alloc; {"damaged": damaged})?)
}

/// The damage as JSON.
fn damage_json(alloc: Global, damage: &Damage) -> Result<Value, NoMemory>
    ensures { IfOk result (λ json. view json ≡ damage_data (damage_view damage.now)) }
{
    match damage {
        Damage::Definition { index } => Ok(json!(in alloc; {"definition": *index})?),
        Damage::Missing { table } => Ok(json!(in alloc; {"missing": table.as_str()})?),
        Damage::Strange { table } => Ok(json!(in alloc; {"strange": table.as_str()})?),
        Damage::BadRow { table, row } => bad_row_json(alloc, table, row),
        Damage::ClashIn {
            table,
            first,
            second,
        } => clash_json(alloc, table, first, second),
    }
}

/// A bad row of a table as JSON.
fn bad_row_json(alloc: Global, table: &Name, row: &Row) -> Result<Value, NoMemory>
    ensures { IfOk result (λ json. view json ≡ damage_data (bad_row table.now row.now)) }
{
    let row = row_value(alloc, row)?;
    Ok(json!(in alloc; {"row": row, "table": table.as_str()})?)
}

/// Two rows of a table that clash, as JSON.
fn clash_json(alloc: Global, table: &Name, first: &Row, second: &Row) -> Result<Value, NoMemory>
    ensures { IfOk result (λ json.
        view json ≡ damage_data (clash_in table.now first.now second.now)) }
{
    let first = row_value(alloc, first)?;
    let second = row_value(alloc, second)?;
    Ok(json!(in alloc; {"rows": [first, second], "table": table.as_str()})?)
}
