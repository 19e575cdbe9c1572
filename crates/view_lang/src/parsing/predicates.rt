//! Predicates, a function for each rule of the grammar.
ghost use Rattle.std.specs.Prelude.{◌≡◌};
ghost use Rattle.lens_pred.specs.Op.{op_view};
ghost use Rattle.lens_pred.specs.View.{predicate_view};
ghost use Rattle.grammar_laws.specs.PredRules as rules;
ghost use Rattle.view_lang.specs.DefBounds.{AreNormal};
ghost use Rattle.view_lang.specs.Outcomes.{Follows, IsPart, IsAll, IsPred, IsPredicate, AreItems};

use crate::parsing::joining::{conjunction, disjunction, push_conjuncts, push_disjuncts};
use crate::parsing::reader::{Halt, Reader};
use crate::parsing::token::Sign;
use lens_pred::{Formula, Op, Pred, Values};
use lens_values::{Name, Value};
use std::alloc::Global;

/// The predicate of conjuncts in normal form.
pub fn predicate_of(conjuncts: Vec<Formula>) -> Pred
    requires { AreNormal (predicate_view conjuncts.items) }
    ensures { result ≡ predicate_view conjuncts.items }
{
    Pred::new(conjuncts).unwrap()
}

impl Reader {
    /// Reads the right side of a comparison.
    fn comparison(&mut self, col: Name, op: Op) -> Result<Formula, Halt>
        ensures { Follows IsPart (rules.comparison col (op_view op)) self.old self.new result }
    {
        if let Some(other) = self.take_name() {
            return Ok(Formula::CompareCols { col, op, other });
        }
        let value = self.need_literal()?;
        Ok(Formula::Compare { col, op, value })
    }

    /// Reads values with commas between them.
    #[tactic(auto, using(crate::proofs::Turns::values_turn))]
    fn all_values(&mut self, alloc: Global) -> Result<Vec<Value>, Halt>
        ensures { Follows AreItems rules.all_values self.old self.new result }
    {
        let mut values = Vec::new(alloc);
        values.push(self.need_literal()?)?;
        while self.take(Sign::Comma) {
            values.push(self.need_literal()?)?;
        }
        Ok(values)
    }

    /// Reads the values behind "in".
    fn values(&mut self, alloc: Global, col: Name) -> Result<Formula, Halt>
        ensures { Follows IsPart (rules.values col) self.old self.new result }
    {
        self.need(Sign::Open)?;
        let values = self.all_values(alloc)?;
        self.need(Sign::Close)?;
        let values = Values::new(values);
        Ok(Formula::OneOf { col, values })
    }

    /// Reads what follows the name of a column.
    fn behind_name(&mut self, alloc: Global, col: Name) -> Result<Formula, Halt>
        ensures { Follows IsPart (rules.behind_name col) self.old self.new result }
    {
        if let Some(op) = self.take_op() {
            return self.comparison(col, op);
        }
        if self.take_word("in") {
            return self.values(alloc, col);
        }
        self.need_word("is")?;
        self.need_word("null")?;
        Ok(Formula::IsNull { col })
    }

    /// Reads a part, within which so many more parentheses and "not"s may be opened.
    #[cycle(pred)]
    fn part(&mut self, alloc: Global, room: usize) -> Result<Formula, Halt>
        ensures { Follows IsPart (rules.part room) self.old self.new result }
    {
        if let Some(col) = self.take_name() {
            return self.behind_name(alloc, col);
        }
        if let Some(flag) = self.take_flag() {
            return Ok(if flag { Formula::True } else { Formula::False });
        }
        if self.take_word("not") {
            if room == 0 {
                return Err(Halt::TooDeep);
            }
            let part = self.part(alloc, room - 1)?;
            return Ok(Formula::Not(Box::new(alloc, part)?));
        }
        self.need(Sign::Open)?;
        if room == 0 {
            return Err(Halt::TooDeep);
        }
        let inner = self.pred(alloc, room - 1)?;
        self.need(Sign::Close)?;
        Ok(inner)
    }

    /// Reads parts joined by "and".
    #[cycle(pred)]
    #[tactic(auto, using(crate::proofs::Turns::parts_turn))]
    fn all(&mut self, alloc: Global, room: usize) -> Result<Vec<Formula>, Halt>
        ensures { Follows IsAll (rules.all_of (rules.part room)) self.old self.new result }
    {
        let mut ands = Vec::new(alloc);
        push_conjuncts(&mut ands, self.part(alloc, room)?)?;
        while self.take_word("and") {
            push_conjuncts(&mut ands, self.part(alloc, room)?)?;
        }
        Ok(ands)
    }

    /// Reads the formula of a predicate, within which so many more parentheses and "not"s may be opened.
    #[cycle(pred)]
    #[tactic(auto, using(crate::proofs::Turns::alls_turn))]
    fn pred(&mut self, alloc: Global, room: usize) -> Result<Formula, Halt>
        ensures { Follows IsPred (rules.pred room) self.old self.new result }
    {
        let mut ors = Vec::new(alloc);
        push_disjuncts(&mut ors, conjunction(self.all(alloc, room)?))?;
        while self.take_word("or") {
            push_disjuncts(&mut ors, conjunction(self.all(alloc, room)?))?;
        }
        Ok(disjunction(ors))
    }

    /// Reads a predicate, within which so many more parentheses and "not"s may be opened.
    pub fn predicate(&mut self, alloc: Global, room: usize) -> Result<Pred, Halt>
        ensures { Follows IsPredicate (rules.pred room) self.old self.new result }
    {
        let mut conjuncts = Vec::new(alloc);
        push_conjuncts(&mut conjuncts, self.pred(alloc, room)?)?;
        Ok(predicate_of(conjuncts))
    }
}
