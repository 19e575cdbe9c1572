//! Rows that are nearly in order, put in order by short moves.
ghost use Rattle.std.specs.Prelude.{◌≡◌, ◌<◌, IsPermutation, length};

use lens_values::Row;

// How many places a row is moved at most. A row that is farther from its place is left to the sort.
const FARTHEST: usize = 16;

/// Moves each row down past the greater ones before it, up to the first that is far from its place.
/// Rows mostly come from others that are in order, and then a sort has nothing left to do.
pub fn order_nearly(rows: &mut [Row])
    ensures rows { IsPermutation rows.old rows.new }
    ensures len { length rows.new ≡ length rows.old }
{
    for place in 1..rows.len() {
        if !move_down(rows, place) {
            return;
        }
    }
}

// Moves the row at the place down past the greater ones before it. Says whether none is left there.
fn move_down(rows: &mut [Row], place: usize) -> bool
    requires { place < length rows.old }
    ensures rows { IsPermutation rows.old rows.new }
    ensures len { length rows.new ≡ length rows.old }
{
    let lowest = place.saturating_sub(FARTHEST);
    for below in (lowest..place).rev() {
        if rows[below] <= rows[below + 1] {
            return true;
        }
        rows.swap(below, below + 1);
    }
    lowest == 0
}
