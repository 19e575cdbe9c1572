//! The members of an object, by their names.
ghost use Rattle.std.specs.Prelude.{◌≡◌, ◌<◌, ℕ, List, None, Some, MatchOption, length, option_map, slice_index_or};
ghost use Rattle.std.specs.Str.{bytes_eq};
ghost use Rattle.serde_json.specs.Find.{get_member};
ghost use Rattle.borrowed_json.specs.Meaning.{value_data, members_data};
ghost use Rattle.borrowed_json.specs.Places.{IsLast};

use crate::value::{Entry, Value};

/// The last member of this name.
pub fn member<'v, 'a>(members: &'v [Entry<'a>], name: &str) -> Option<&'v Value<'a>>
    ensures { option_map (λ value. value_data value.now) result
        ≡ get_member name.now (members_data members.now) }
{
    let place = place_of(members, name)?;
    Some(&members[place].1)
}

/// The last member of this name, moved out of its object.
pub fn take_member<'a>(members: &mut Vec<Entry<'a>>, name: &str) -> Option<Value<'a>>
    ensures taken { option_map value_data result
        ≡ get_member name.now (members_data members.old.items) }
    ensures others { (other : List ℕ) → (other ≡ name.now → ⊥)
        → get_member other (members_data members.new.items)
        ≡ get_member other (members_data members.old.items) }
{
    let place = place_of(members, name)?;
    Some(members.remove(place).1)
}

// The place of the last member of this name.
fn place_of(members: &[Entry<'_>], name: &str) -> Option<usize>
    ensures { MatchOption result (get_member name.now (members_data members.now) ≡ None)
        (λ place. IsLast name.now place members.now) }
{
    let mut left = members.len();
    while left > 0 {
        left -= 1;
        if is_named(&members[left], name) {
            return Some(left);
        }
    }
    None
}

// Whether the member has the name. Most others have a name of another length.
fn is_named(member: &Entry<'_>, name: &str) -> bool
    ensures { result ≡ bytes_eq member.now.0.now name.now }
{
    member.0.len() == name.len() && member.0 == name
}
