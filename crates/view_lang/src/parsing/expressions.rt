//! Expressions, a function for each rule of the grammar.
ghost use Rattle.std.specs.Prelude.{◌≡◌, true, IfOk};
ghost use Rattle.grammar_specs.specs.Written.{is_some_list};
ghost use Rattle.grammar_laws.specs.ExprRules as rules;
ghost use Rattle.view_lang.specs.Outcomes.{Follows, IsExpr, IsOperand, AreItems};

use crate::expr::Expr;
use crate::parsing::reader::{Halt, Reader};
use crate::parsing::token::Sign;
use lens_values::{JoinKind, Name, Names};
use std::alloc::Global;

impl Reader {
    /// Reads names, one or more.
    #[tactic(auto, using(crate::proofs::Turns::names_turn))]
    pub fn names(&mut self, alloc: Global) -> Result<Vec<Name>, Halt>
        ensures value { Follows AreItems rules.all_names self.old self.new result }
        ensures some { IfOk result (λ names. is_some_list names.items ≡ true) }
    {
        let mut names = Vec::new(alloc);
        names.push(self.need_name()?)?;
        while let Some(name) = self.take_name() {
            names.push(name)?;
        }
        Ok(names)
    }

    /// Reads a name, or an expression in parentheses.
    #[cycle(expr)]
    fn operand(&mut self, alloc: Global, room: usize) -> Result<Expr, Halt>
        ensures { Follows IsOperand (rules.operand room) self.old self.new result }
    {
        if let Some(name) = self.take_name() {
            return Ok(Expr::Named { name });
        }
        self.need(Sign::Open)?;
        if room == 0 {
            return Err(Halt::TooDeep);
        }
        let expr = self.expr(alloc, room - 1)?;
        self.need(Sign::Close)?;
        Ok(expr)
    }

    /// Reads a selection behind its first word.
    #[cycle(expr)]
    fn select(&mut self, alloc: Global, room: usize) -> Result<Expr, Halt>
        ensures { Follows IsExpr (rules.select_of room (rules.operand room)) self.old self.new result }
    {
        self.need_word("from")?;
        let of = Box::new(alloc, self.operand(alloc, room)?)?;
        self.need_word("where")?;
        let pred = self.predicate(alloc, room)?;
        Ok(Expr::Select { pred, of })
    }

    /// Reads a drop behind its first word.
    #[cycle(expr)]
    fn dropped(&mut self, alloc: Global, room: usize) -> Result<Expr, Halt>
        ensures { Follows IsExpr (rules.drop_of (rules.operand room)) self.old self.new result }
    {
        let col = self.need_name()?;
        self.need_word("determined")?;
        self.need_word("by")?;
        self.need(Sign::Open)?;
        let by = Names::new(alloc, self.names(alloc)?)?;
        self.need(Sign::Comma)?;
        let fill = self.take_fill().ok_or(Halt::Stopped)?;
        self.need(Sign::Close)?;
        self.need_word("from")?;
        let of = Box::new(alloc, self.operand(alloc, room)?)?;
        Ok(Expr::Drop { col, by, fill, of })
    }

    /// Reads a rename behind its first word.
    #[cycle(expr)]
    fn rename(&mut self, alloc: Global, room: usize) -> Result<Expr, Halt>
        ensures { Follows IsExpr (rules.rename_of (rules.operand room)) self.old self.new result }
    {
        let col = self.need_name()?;
        self.need_word("to")?;
        let to = self.need_name()?;
        self.need_word("from")?;
        let of = Box::new(alloc, self.operand(alloc, room)?)?;
        Ok(Expr::Rename { col, to, of })
    }

    /// Reads a join of this kind behind its first word.
    #[cycle(expr)]
    fn join(&mut self, alloc: Global, kind: JoinKind, room: usize) -> Result<Expr, Halt>
        ensures { Follows IsExpr (rules.join_of (rules.operand room) kind) self.old self.new result }
    {
        let left = Box::new(alloc, self.operand(alloc, room)?)?;
        self.need_word("with")?;
        let right = Box::new(alloc, self.operand(alloc, room)?)?;
        Ok(Expr::Join { kind, left, right })
    }

    /// Reads an expression, within which so many more parentheses and "not"s may be opened.
    #[cycle(expr)]
    pub fn expr(&mut self, alloc: Global, room: usize) -> Result<Expr, Halt>
        ensures { Follows IsExpr (rules.expr room) self.old self.new result }
    {
        if let Some(name) = self.take_name() {
            Ok(Expr::Named { name })
        } else if self.take_word("select") {
            self.select(alloc, room)
        } else if self.take_word("drop") {
            self.dropped(alloc, room)
        } else if self.take_word("rename") {
            self.rename(alloc, room)
        } else {
            let kind = self.take_join_kind().ok_or(Halt::Stopped)?;
            self.join(alloc, kind, room)
        }
    }
}
