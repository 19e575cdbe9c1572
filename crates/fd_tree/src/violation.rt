//! The first two rows that violate an edge.
ghost use Rattle.std.specs.Prelude.{◌≡◌, ◌<◌, ◌+◌, length};
ghost use Rattle.lens_specs.specs.Rows.{agree};
ghost use Rattle.lens_specs.specs.Sort.{clashes, first_pair};
ghost use Rattle.fd_tree.specs.ClashPlaces.{ArePlaces, SameFrom, entry, later_places};

use crate::edge::Edge;
use lens_values::Row;

/// The places of the least pair of rows that violates the edge. `next_in_group` has for each row
/// the place of the next row that agrees with it on the left side.
pub fn first_violation(
    rows: &[Row],
    edge: &Edge,
    next_in_group: Vec<Option<usize>>,
) -> Option<(usize, usize)>
    requires { next_in_group.items ≡ later_places (agree edge.now.left) 0 rows.now }
    ensures { ArePlaces rows.now result (first_pair edge.now rows.now) }
{
    let mut partners = next_in_group;
    let mut first = None;
    for place in (0..rows.len()).rev() {
        let partner = partner_of(rows, edge, &partners, place);
        partners[place] = partner;
        if let Some(partner) = partner {
            first = Some((place, partner));
        }
    }
    first
}

// The place of the first later row that clashes with the row at the place. Given are for this row
// the next one that agrees on the left side, and for each later row the first one behind it that
// clashes with it.
fn partner_of(rows: &[Row], edge: &Edge, partners: &[Option<usize>], place: usize) -> Option<usize>
    requires place { place < length rows.now }
    requires len { length partners.now ≡ length rows.now }
    requires next { entry partners.now place
        ≡ entry (later_places (agree edge.now.left) 0 rows.now) place }
    requires later { SameFrom (place + 1) partners.now
        (later_places (clashes edge.now) 0 rows.now) }
    ensures { result ≡ entry (later_places (clashes edge.now) 0 rows.now) place }
{
    match partners[place] {
        None => None,
        Some(next) => {
            if rows[place].agree_on(&rows[next], &edge.right) {
                partners[next]
            } else {
                Some(next)
            }
        }
    }
}
