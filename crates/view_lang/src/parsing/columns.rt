//! Columns that were read, each with a name of its own.
ghost use Rattle.std.specs.Prelude.{◌≡◌, ◌++◌, ◌∷◌, [], false, IfOk};
ghost use Rattle.grammar_specs.specs.Written.{is_column_of};
ghost use Rattle.view_lang.specs.DefBounds.{HasNoRepeat};

use lens_values::{Kind, Name, NoMemory};
use std::alloc::Global;
use std::collections::BTreeSet;
use std::marker::Model;

/// Columns in the order of the text, with a tree of their names. A contract sees the columns.
#[derive(Drop)]
pub struct ReadColumns {
    list: Vec<(Name, Kind)>,
    names: BTreeSet<Name>,
}

impl Model for ReadColumns {
    ghost use Rattle.std.specs.Prelude.{◌≡◌, List, ℕ};
    ghost use Rattle.std.specs.BTreeSet.{contains};
    ghost use Rattle.plain_values.specs.Order.{bytes_cmp};
    ghost use Rattle.plain_values.specs.declared.value.Kind.{Kind};
    ghost use Rattle.grammar_specs.specs.Written.{is_column_of};
    ghost use Rattle.view_lang.specs.DefBounds.{HasNoRepeat};

    ghost Value = { List (List ℕ × Kind) };

    ghost view = { λ c. c.list.items };

    ghost invariant = { λ c. ((name : List ℕ) → contains bytes_cmp c.names name ≡ is_column_of c.list.items name)
        × HasNoRepeat c.list.items };
}

impl ReadColumns {
    pub fn new(alloc: Global) -> ReadColumns
        ensures { result ≡ [] }
    {
        ReadColumns {
            list: Vec::new(alloc),
            names: BTreeSet::new(alloc),
        }
    }

    /// Whether a column has the name.
    pub fn has(&self, name: &Name) -> bool
        ensures { result ≡ is_column_of self.now name.now }
    {
        self.names.contains(name)
    }

    pub fn with(mut self, name: Name, kind: Kind) -> Result<ReadColumns, NoMemory>
        requires { is_column_of self name ≡ false }
        ensures { IfOk result (λ more. more ≡ self ++ (name, kind) ∷ []) }
    {
        self.list.push((name, kind))?;
        self.names.insert(name)?;
        Ok(self)
    }

    /// The columns in the order of the text.
    pub fn into_list(self) -> Vec<(Name, Kind)>
        ensures list { result.items ≡ self }
        ensures distinct { HasNoRepeat self }
    {
        self.list
    }
}
