//! Definitions, a function for each rule of the grammar.
ghost use Rattle.std.specs.Prelude.{◌≡◌, true, [], IfOk};
ghost use Rattle.std.specs.FinMap as map_of;
ghost use Rattle.grammar_specs.specs.Written.{is_some_list};
ghost use Rattle.grammar_specs.specs.Meaning as meaning;
ghost use Rattle.grammar_laws.specs.DefRules as rules;
ghost use Rattle.view_lang.specs.Outcomes.{Follows, AreRead, AreColumns, IsDep, AreDeps, IsCondition, IsDefinition};
ghost use Rattle.grammar_laws.specs.Tests as tests;

use crate::definition::{Definition, Deps};
use crate::parsing::columns::ReadColumns;
use crate::parsing::predicates::predicate_of;
use crate::parsing::reader::{Halt, Reader};
use crate::parsing::token::Sign;
use fd_closure::Dep;
use lens_pred::Pred;
use lens_values::{Columns, ColumnsFault, Kind, Name, Names, NoMemory};
use std::alloc::Global;

// The kind that takes null too.
fn with_null(kind: Kind) -> Kind
    ensures { result ≡ tests.with_null kind }
{
    match kind {
        Kind::Int | Kind::IntOrNull => Kind::IntOrNull,
        Kind::Text | Kind::TextOrNull => Kind::TextOrNull,
        Kind::Flag | Kind::FlagOrNull => Kind::FlagOrNull,
    }
}

// The columns of a table.
fn columns_of(alloc: Global, columns: ReadColumns) -> Result<Columns, NoMemory>
    ensures { IfOk result (λ cols. cols ≡ map_of.from_entries columns) }
{
    match Columns::new(alloc, columns.into_list()) {
        Ok(columns) => Ok(columns),
        Err(ColumnsFault::Twice { .. }) => unreachable!(),
        Err(ColumnsFault::KindClash { .. }) => unreachable!(),
        Err(ColumnsFault::NoMemory) => Err(NoMemory),
    }
}

// The dependency of two sides with a column or more.
fn dep_of(alloc: Global, left: Vec<Name>, right: Vec<Name>) -> Result<Dep, NoMemory>
    requires left { is_some_list left.items ≡ true }
    requires right { is_some_list right.items ≡ true }
    ensures { IfOk result (λ dep. dep ≡ meaning.dep_meaning (left.items, right.items)) }
{
    let left = Names::new(alloc, left)?;
    Ok(Dep::new(left, Names::new(alloc, right)?).unwrap())
}

impl Reader {
    /// Reads a column behind these.
    #[tactic(auto, using(crate::proofs::Turns::new_column))]
    fn column(&mut self, columns: ReadColumns) -> Result<ReadColumns, Halt>
        ensures { Follows AreRead (rules.column columns) self.old self.new result }
    {
        let name = self.take_new_name(&columns).ok_or(Halt::Stopped)?;
        let kind = self.take_kind().ok_or(Halt::Stopped)?;
        if self.take_word("null") {
            return Ok(columns.with(name, with_null(kind))?);
        }
        Ok(columns.with(name, kind)?)
    }

    /// Reads columns with commas between them.
    #[tactic(auto, using(crate::proofs::Turns::columns_turn))]
    fn columns(&mut self, alloc: Global) -> Result<Columns, Halt>
        ensures { Follows AreColumns rules.all_columns self.old self.new result }
    {
        let mut columns = self.column(ReadColumns::new(alloc))?;
        while self.take(Sign::Comma) {
            columns = self.column(columns)?;
        }
        Ok(columns_of(alloc, columns)?)
    }

    fn dep(&mut self, alloc: Global) -> Result<Dep, Halt>
        ensures { Follows IsDep rules.dep self.old self.new result }
    {
        let left = self.names(alloc)?;
        self.need(Sign::Arrow)?;
        let right = self.names(alloc)?;
        Ok(dep_of(alloc, left, right)?)
    }

    /// Reads dependencies behind "with", if it is next.
    #[tactic(auto, using(crate::proofs::Turns::deps_turn))]
    fn deps(&mut self, alloc: Global) -> Result<Deps, Halt>
        ensures { Follows AreDeps rules.all_deps self.old self.new result }
    {
        let mut deps = Vec::new(alloc);
        if !self.take_word("with") {
            return Ok(Deps::new(deps));
        }
        deps.push(self.dep(alloc)?)?;
        while self.take(Sign::Comma) {
            deps.push(self.dep(alloc)?)?;
        }
        Ok(Deps::new(deps))
    }

    /// Reads a predicate behind "where", if it is next.
    fn condition(&mut self, alloc: Global, room: usize) -> Result<Pred, Halt>
        ensures { Follows IsCondition (rules.condition room) self.old self.new result }
    {
        if self.take_word("where") {
            return self.predicate(alloc, room);
        }
        Ok(predicate_of(Vec::new(alloc)))
    }

    /// Reads a table behind its first word.
    fn table(&mut self, alloc: Global, room: usize) -> Result<Definition, Halt>
        ensures { Follows IsDefinition (rules.table_rule room) self.old self.new result }
    {
        let name = self.need_name()?;
        self.need(Sign::Open)?;
        let cols = self.columns(alloc)?;
        self.need(Sign::Close)?;
        let deps = self.deps(alloc)?;
        let pred = self.condition(alloc, room)?;
        Ok(Definition::Table {
            name,
            cols,
            deps,
            pred,
        })
    }

    /// Reads a view behind its first word.
    fn view(&mut self, alloc: Global, room: usize) -> Result<Definition, Halt>
        ensures { Follows IsDefinition (rules.view_rule room) self.old self.new result }
    {
        let name = self.need_name()?;
        self.need(Sign::Equals)?;
        let expr = self.expr(alloc, room)?;
        Ok(Definition::View { name, expr })
    }

    fn definition(&mut self, alloc: Global, room: usize) -> Result<Definition, Halt>
        ensures { Follows IsDefinition (rules.definition room) self.old self.new result }
    {
        if self.take_word("table") {
            return self.table(alloc, room);
        }
        self.need_word("view")?;
        self.view(alloc, room)
    }

    /// Reads a definition that ends with the tokens, within which so many parentheses and "not"s
    /// may be opened.
    pub fn definition_alone(&mut self, alloc: Global, room: usize) -> Result<Definition, Halt>
        ensures { Follows IsDefinition (rules.alone room) self.old self.new result }
    {
        let definition = self.definition(alloc, room)?;
        match self.next() {
            Some(_) => Err(Halt::Stopped),
            None => Ok(definition),
        }
    }
}
