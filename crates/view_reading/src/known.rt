//! The parts of rows that are among known rows.
ghost use Rattle.std.specs.Prelude.{◌≡◌, ◌<◌, MatchOption, length, slice_index_or};
ghost use Rattle.std.specs.List.{zip};
ghost use Rattle.std.specs.declared.cmp.Ordering.TheVariants.{Equal};
ghost use Rattle.plain_values.specs.Part.{restrict};
ghost use Rattle.lens_specs.specs.Names.{Names as NameSet};
ghost use Rattle.lens_laws.specs.Finds.{IsOver};
ghost use Rattle.view_reading.specs.KnownRows.{AreAmong, AreOver};

use lens_values::{Name, Row, Value};
use std::cmp::Ordering;

// How many comparisons a row may take, and how many all rows may take beside that.
const STEPS_A_ROW: usize = 8;

const STEPS_BESIDE: usize = 1 << 16;

/// A place in a rising list of known rows, near which the part of the next row may be.
#[derive(Drop)]
pub(crate) struct Cursor {
    next: usize,
    // How many comparisons are left. Where there are none, nothing is looked for any more.
    steps: usize,
}

impl Cursor {
    /// The first place.
    pub(crate) fn new() -> Cursor {
        Cursor {
            next: 0,
            steps: STEPS_BESIDE,
        }
    }

    /// The place of the known row that is the row's part in the columns of the known rows, if it is
    /// found, and then the cursor stands behind it. Rows mostly come in the order of their parts,
    /// and then all are found. Where they do not, each search goes to rows that lie anywhere in
    /// memory, which costs more than to sort many parts, so after some thousands of them it is given
    /// up.
    pub(crate) fn find(&mut self, row: &Row, known: &[Row]) -> Option<usize>
        ensures { (C : NameSet) → AreOver C known.now → MatchOption result (Unit {0})
            (λ place. (place < length known.now)
            × (slice_index_or known.now place (restrict C row.now) ≡ restrict C row.now)) }
    {
        if self.steps == 0 {
            return None;
        }
        self.steps = self.steps.saturating_add(STEPS_A_ROW);
        self.search(row, known)
    }

    // Searches for the row's part from the cursor's place on, in strides that double, but never past
    // the middle of the places where the part may still be.
    fn search(&mut self, row: &Row, known: &[Row]) -> Option<usize>
        ensures { (C : NameSet) → AreOver C known.now → MatchOption result (Unit {0})
            (λ place. (place < length known.now)
            × (slice_index_or known.now place (restrict C row.now) ≡ restrict C row.now)) }
    {
        let mut low = 0;
        let mut high = known.len();
        let mut place = self.next.min(high.saturating_sub(1));
        let mut step: usize = 1;
        'search: while low <= place && place < high && self.steps > 0 {
            self.steps -= 1;
            match part_cmp(&known[place], row) {
                Ordering::Equal => {
                    self.next = place + 1;
                    return Some(place);
                }
                Ordering::Less => {
                    low = place + 1;
                    place = low + step.min((high - low) / 2);
                }
                Ordering::Greater => {
                    high = place;
                    place = high.saturating_sub(1 + step.min((high - low) / 2));
                }
            }
            step = step.saturating_mul(2);
        }
        self.next = place;
        None
    }
}

// How the known row stands to the row's part in its columns. Equal only where it is that part.
fn part_cmp(known: &Row, row: &Row) -> Ordering
    ensures { result ≡ Equal → (C : NameSet) → IsOver C known.now
        → known.now ≡ restrict C row.now }
{
    pairs_cmp(
        known.names().as_slice(),
        known.values(),
        row.names().as_slice(),
        row.values(),
    )
}

// How the known names with their values stand to the others with these names, by the first values
// that differ. If it returns `Equal`, each known name is among the others, with the same value.
fn pairs_cmp(known: &[Name], values: &[Value], others: &[Name], their: &[Value]) -> Ordering
    requires known { length known.now ≡ length values.now }
    requires others { length others.now ≡ length their.now }
    ensures { result ≡ Equal
        → AreAmong (zip known.now values.now) (zip others.now their.now) }
{
    let mut i = 0;
    let mut j = 0;
    while i < known.len() && j < others.len() {
        if known[i] == others[j] {
            match values[i].cmp(&their[j]) {
                Ordering::Equal => i += 1,
                order => return order,
            }
        }
        j += 1;
    }
    if i < known.len() {
        Ordering::Less
    } else {
        Ordering::Equal
    }
}
