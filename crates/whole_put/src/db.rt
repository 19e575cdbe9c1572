//! Tables by their names.
ghost use Rattle.std.specs.Prelude.{◌≡◌, IfOk, OnErr, OnOk, Some, is_some, option_copied, true};
ghost use Rattle.std.specs.FinMap as finmap;

use lens_values::{Name, NoMemory};
use row_sets::Relation;
use std::alloc::Global;
use std::collections::BTreeMap;
use std::marker::Model;
use std::rc::Rc;

/// A relation for each of some names. Copies share the relations. A contract sees the tables of the
/// definition.
#[derive(Drop)]
pub struct Db {
    tables: BTreeMap<Name, Rc<Relation>>,
}

impl Model for Db {
    ghost use Rattle.std.specs.Coded.{coded_list, coded_ℕ};
    ghost use Rattle.std.specs.FinMap as finmap;
    ghost use Rattle.lens_specs.specs.Lens.{Tables};
    ghost use Rattle.row_sets.specs.Codes.{coded_relation};
    ghost use Rattle.whole_put.specs.Seen.{seen_entries};

    ghost Value = { Tables };

    ghost coded = { finmap.code (coded_list coded_ℕ) coded_relation };

    ghost view = { λ d. finmap.from_entries (seen_entries (λ shared. shared.value) d.tables.entries) };
}

impl Db {
    /// No tables.
    pub fn new(alloc: Global) -> Db
        ensures { result ≡ finmap.empty }
    {
        Db {
            tables: BTreeMap::new(alloc),
        }
    }

    /// Puts the relation at the name, in place of the one that is there. After `NoMemory` the
    /// tables are unchanged.
    pub fn set(&mut self, alloc: Global, table: Name, relation: Relation) -> Result<(), NoMemory>
        ensures ok { OnOk result (self.new ≡ finmap.insert self.old table relation) }
        ensures err { OnErr result (self.new ≡ self.old) }
    {
        let shared = Rc::new(alloc, relation)?;
        self.tables.insert(table, shared)?;
        Ok(())
    }

    /// The relation at the name, or `None` where there is none.
    pub fn table(&self, name: &Name) -> Option<&Relation>
        ensures { option_copied result ≡ finmap.get self.now name.now }
    {
        match self.tables.get(name) {
            Some(shared) => Some(shared.as_ref()),
            None => None,
        }
    }

    /// The relation at a name that has one.
    pub fn at(&self, name: &Name) -> &Relation
        requires { is_some (finmap.get self.now name.now) ≡ true }
        ensures { Some result.now ≡ finmap.get self.now name.now }
    {
        match self.table(name) {
            Some(relation) => relation,
            None => unreachable!(),
        }
    }

    /// Equal tables, which share the relations.
    pub fn copy(&self, _alloc: Global) -> Result<Db, NoMemory>
        ensures { IfOk result (λ copy. copy ≡ self.now) }
    {
        Ok(Db {
            tables: self.tables.clone()?,
        })
    }

    /// The tables with this relation at the name, in place of the one that is there.
    pub fn with(&self, alloc: Global, name: &Name, relation: Relation) -> Result<Db, NoMemory>
        ensures { IfOk result (λ after.
            after ≡ finmap.insert self.now name.now relation) }
    {
        let mut after = self.copy(alloc)?;
        after.set(alloc, *name, relation)?;
        Ok(after)
    }
}
