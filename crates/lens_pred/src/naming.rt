//! The names in a formula.
ghost use Rattle.std.specs.Prelude.{◌≡◌, [], ◌∷◌, ◌++◌, OnOk, find};
ghost use Rattle.std.specs.List.{list_all, list_any};
ghost use Rattle.plain_values.specs.SortedSet as set;
ghost use Rattle.lens_specs.specs.Predicate.{formula_mentions, names_in, names_of_all};
ghost use Rattle.lens_specs.specs.Refusal.{is_mixed};
ghost use Rattle.lens_pred.specs.Sought.{passes};
ghost use Rattle.lens_pred.specs.View.{formula_view, list_view, predicate_view};

use crate::formula::Formula;
use lens_values::{Columns, Name, Names, NoMemory};

/// The names that are sought in a formula.
#[derive(Clone, Copy)]
pub(crate) enum Sought<'a> {
    /// This name.
    Is(&'a Name),
    /// Each name but this.
    IsNot(&'a Name),
    /// Each name that none of these columns has.
    IsOutside(&'a Columns),
    /// Each of these names.
    IsIn(&'a Names),
    /// Each name but these.
    IsNotIn(&'a Names),
}

impl Sought<'_> {
    // Whether the name is sought.
    fn passes(&self, name: &Name) -> bool
        ensures { result ≡ passes self.now name.now }
    {
        match self {
            Sought::Is(sought) => *sought == name,
            Sought::IsNot(other) => name != *other,
            Sought::IsOutside(columns) => columns.kind(name).is_none(),
            Sought::IsIn(names) => names.has(name),
            Sought::IsNotIn(names) => !names.has(name),
        }
    }

    // The name, if it is sought.
    fn found(&self, name: &Name) -> Option<Name>
        ensures { result ≡ find (passes self.now) (name.now ∷ []) }
    {
        if self.passes(name) { Some(*name) } else { None }
    }
}

impl Formula {
    /// The first name in text order that is sought.
    #[cycle(first_name)]
    pub(crate) fn first_name(&self, sought: Sought<'_>) -> Option<Name>
        ensures { result ≡ find (passes sought.entry) (names_in (formula_view self.now)) }
    {
        match self {
            Formula::True | Formula::False => None,
            Formula::Compare { col, .. } | Formula::OneOf { col, .. } | Formula::IsNull { col } =>
                sought.found(col),
            Formula::CompareCols { col, other, .. } => match sought.found(col) {
                Some(name) => Some(name),
                None => sought.found(other),
            },
            Formula::Not(inner) => inner.first_name(sought),
            Formula::And(members) | Formula::Or(members) => {
                first_name_in(members.as_slice(), sought)
            }
        }
    }

    /// Whether the name occurs in the formula.
    pub fn mentions(&self, name: &Name) -> bool
        ensures { result ≡ formula_mentions (formula_view self.now) name.now }
    {
        self.first_name(Sought::Is(name)).is_some()
    }

    /// Whether this column and another occur in the formula.
    pub fn is_mixed(&self, col: &Name) -> bool
        ensures { result ≡ is_mixed col.now (formula_view self.now) }
    {
        self.mentions(col) && self.first_name(Sought::IsNot(col)).is_some()
    }

    /// Whether one of these columns occurs in the formula.
    pub fn mentions_one_of(&self, cols: &Names) -> bool
        ensures { result ≡ list_any (set.contains cols.now) (names_in (formula_view self.now)) }
    {
        self.first_name(Sought::IsIn(cols)).is_some()
    }

    /// Whether each column in the formula is one of these.
    pub fn mentions_only(&self, cols: &Names) -> bool
        ensures { result ≡ list_all (set.contains cols.now) (names_in (formula_view self.now)) }
    {
        self.first_name(Sought::IsNotIn(cols)).is_none()
    }

    /// Adds the names at the end, in text order. After an `Err` some of them may be there.
    #[cycle(append_names)]
    pub fn append_names(&self, list: &mut Vec<Name>) -> Result<(), NoMemory>
        ensures { OnOk result (list.new.items
            ≡ list.old.items ++ names_in (formula_view self.now)) }
    {
        match self {
            Formula::True | Formula::False => Ok(()),
            Formula::Compare { col, .. } | Formula::OneOf { col, .. } | Formula::IsNull { col } =>
                push(list, col),
            Formula::CompareCols { col, other, .. } => {
                push(list, col)?;
                push(list, other)
            }
            Formula::Not(inner) => inner.append_names(list),
            Formula::And(members) | Formula::Or(members) => {
                append_names_of(members.as_slice(), list)
            }
        }
    }
}

// Adds the name at the end.
fn push(list: &mut Vec<Name>, name: &Name) -> Result<(), NoMemory>
    ensures { OnOk result (list.new.items ≡ list.old.items ++ name.now ∷ []) }
{
    Ok(list.push(*name)?)
}

// The first name in the formulas that is sought.
#[cycle(first_name)]
pub(crate) fn first_name_in(members: &[Formula], sought: Sought<'_>) -> Option<Name>
    ensures { result ≡ find (passes sought.entry)
        (names_of_all (list_view (predicate_view members.now))) }
{
    for member in members {
        if let Some(name) = member.first_name(sought) {
            return Some(name);
        }
    }
    None
}

// Adds the names of all the formulas at the end.
#[cycle(append_names)]
pub(crate) fn append_names_of(members: &[Formula], list: &mut Vec<Name>) -> Result<(), NoMemory>
    ensures { OnOk result (list.new.items
        ≡ list.old.items ++ names_of_all (list_view (predicate_view members.now))) }
{
    for member in members {
        member.append_names(list)?;
    }
    Ok(())
}
