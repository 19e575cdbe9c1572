//! Rows put in order by numbers that stand for what they begin with.
ghost use Rattle.std.specs.Prelude.{◌≡◌, IfOk, map};
ghost use Rattle.std.specs.List.{list_any};
ghost use Rattle.std.specs.Ordering.{eq_by_cmp};
ghost use Rattle.plain_values.specs.Row.{row_cmp};
ghost use Rattle.row_sets.specs.Ranks.{row_of};

use lens_values::{NoMemory, Row, Value};
use std::alloc::Global;

// How many bytes a rank holds.
const FRONT: usize = 16;

/// A row behind its rank. Ranks tell most rows apart and lie beside one another, so a sort of them
/// goes to few rows, which lie anywhere in memory.
#[derive(PartialEq, Eq, PartialOrd, Ord, Drop)]
pub(crate) struct Ranked {
    rank: u128,
    row: Row,
}

/// The rows, in the order of their ranks. Where all have the same columns and no text has a byte
/// below 2, that is rising order.
pub(crate) fn by_rank(alloc: Global, rows: Vec<Row>) -> Result<Vec<Row>, NoMemory>
    ensures { IfOk result (λ ordered. (row : _) → list_any (eq_by_cmp row_cmp row) ordered.items
        ≡ list_any (eq_by_cmp row_cmp row) rows.items) }
{
    let mut ranked = with_ranks(alloc, rows)?;
    ranked.sort()?;
    without_ranks(alloc, ranked)
}

fn with_ranks(alloc: Global, rows: Vec<Row>) -> Result<Vec<Ranked>, NoMemory>
    ensures { IfOk result (λ ranked. map row_of ranked.items ≡ rows.items) }
{
    let mut ranked = Vec::with_capacity(alloc, rows.len())?;
    for row in rows {
        let rank = rank_of(&row);
        ranked.push(Ranked { rank, row })?;
    }
    Ok(ranked)
}

fn without_ranks(alloc: Global, ranked: Vec<Ranked>) -> Result<Vec<Row>, NoMemory>
    ensures { IfOk result (λ rows. rows.items ≡ map row_of ranked.items) }
{
    let mut rows = Vec::with_capacity(alloc, ranked.len())?;
    for one in ranked {
        rows.push(one.row)?;
    }
    Ok(rows)
}

// The first bytes of the row's values, as a number.
fn rank_of(row: &Row) -> u128 {
    let mut front = Front::new();
    for value in row.values() {
        match value {
            Value::Null => front.push(0),
            Value::Int(number) => front.push_number(*number),
            Value::Text(text) => front.push_text(text.as_str().as_bytes()),
            Value::Flag(flag) => front.push(1 + u8::from(*flag)),
        }
    }
    u128::from_be_bytes(front.bytes)
}

// The first bytes of a row, as many as a rank holds. They rise with the row.
#[derive(Drop)]
struct Front {
    bytes: [u8; FRONT],
    filled: usize,
}

impl Front {
    fn new() -> Front {
        Front {
            bytes: [0; FRONT],
            filled: 0,
        }
    }

    fn push(&mut self, byte: u8) {
        if self.filled < FRONT {
            self.bytes[self.filled] = byte;
            self.filled += 1;
        }
    }

    // The count of the bytes that the number needs, above the middle for a number from 0 on and
    // below it for others, and then these bytes. So small numbers leave room for the next values.
    fn push_number(&mut self, number: i64) {
        let bytes = number.to_be_bytes();
        let size = if number < 0 { !number } else { number };
        let spare = (size.leading_zeros() / 8) as usize;
        let needed = (8 - spare) as u8;
        self.push(if number < 0 {
            127 - needed
        } else {
            128 + needed
        });
        for byte in bytes.iter().skip(spare) {
            self.push(*byte);
        }
    }

    // The bytes of the text, and a one, so that a text comes before those that it begins and behind
    // null.
    fn push_text(&mut self, bytes: &[u8]) {
        for byte in bytes.iter().take(FRONT.saturating_sub(self.filled)) {
            self.push(*byte);
        }
        self.push(1);
    }
}
