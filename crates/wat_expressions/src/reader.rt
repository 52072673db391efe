//! Reads expressions by a function that reads those inside them, a level of nesting deeper.

ghost use Rattle.std.specs.Prelude.{◌≡◌, ◌≢◌, ℕ, ◌-◌};
ghost use Rattle.wat_grammar.specs.Phrase.{nested, read_within, read_inside};
ghost use Rattle.wat_syntax.specs.Sql as spec;
ghost use Rattle.wat_syntax.specs.Sql.{sql, list};
ghost use Rattle.wat_cursor.specs.Reading.{Reads};
ghost use Rattle.wat_expressions.specs.Applied.{read_applied, read_ranged};
ghost use Rattle.wat_expressions.specs.Nests.{Nests};

use crate::operators::{
    aggregate_word, any_column, comparison, conjunction_operator, expression_operator, null_test,
    sum_operator, term_operator,
};
use crate::parts::{aggregate, between, binary, in_list, unary};
use std::alloc::Global;
use wat_ast::{AggregateKind, Expr, Exprs, UnaryOp};
use wat_cursor::{Cursor, Fault};
use wat_list::Items;
use wat_syntax::{Kind, Nest};
use wat_value::Value;

const TERM_OPERATORS: [Kind; 2] = [Kind::Star, Kind::Slash];

const SUM_OPERATORS: [Kind; 3] = [Kind::Plus, Kind::Minus, Kind::Concat];

const COMPARISONS: [Kind; 6] = [
    Kind::Equal,
    Kind::Unequal,
    Kind::Less,
    Kind::AtMost,
    Kind::Greater,
    Kind::AtLeast,
];

const RANGES: [Kind; 2] = [Kind::Between, Kind::In];

const CONJUNCTION_OPERATORS: [Kind; 1] = [Kind::And];

const EXPRESSION_OPERATORS: [Kind; 1] = [Kind::Or];

/// Reads expressions, by a function that reads those inside them.
#[derive(Clone, Copy)]
pub struct Reader<F> {
    pub alloc: Global,
    /// How many levels may still be opened.
    pub levels: usize,
    pub nested: F,
}

impl<F: Fn(Global, &mut Cursor<'_>, usize, Nest) -> Result<Expr, Fault>> Reader<F> {
    /// What stands inside the level that was opened.
    fn inner(&self, cursor: &mut Cursor<'_>, nest: Nest) -> Result<Expr, Fault>
        requires nests { Nests self.now.levels (F.pre self.now.nested) (F.post self.now.nested) }
        requires open { self.now.levels ≢ 0 }
        ensures { Reads (read_inside sql self.now.levels nest cursor.old) result cursor.new }
    {
        (self.nested)(self.alloc, cursor, self.levels - 1, nest)
    }

    /// One or more expressions inside the level that was opened, with commas between.
    fn inner_list(&self, cursor: &mut Cursor<'_>) -> Result<Exprs, Fault>
        requires nests { Nests self.now.levels (F.pre self.now.nested) (F.post self.now.nested) }
        requires open { self.now.levels ≢ 0 }
        ensures { Reads (read_within sql self.now.levels (list (nested Nest.Whole)) cursor.old) result cursor.new }
    {
        let mut found = Items::new(self.alloc);
        let first = self.inner(cursor, Nest::Whole)?;
        found.push(first)?;
        'items: for _turn in 0..cursor.len() {
            if !cursor.sees(Kind::Comma) {
                return Ok(found);
            }
            cursor.advance();
            let next = self.inner(cursor, Nest::Whole)?;
            found.push(next)?;
        }
        Ok(found)
    }

    #[tactic(auto, unfolding(wat_syntax::specs::Sql::parenthesized))]
    fn parenthesized(&self, cursor: &mut Cursor<'_>) -> Result<Expr, Fault>
        requires { Nests self.now.levels (F.pre self.now.nested) (F.post self.now.nested) }
        ensures { Reads (read_within sql self.now.levels spec.parenthesized cursor.old) result cursor.new }
    {
        if self.levels == 0 {
            return Err(Fault::Syntax);
        }
        cursor.word(Kind::Open)?;
        let inner = self.inner(cursor, Nest::Whole)?;
        cursor.word(Kind::Close)?;
        Ok(inner)
    }

    /// What COUNT counts: all rows, or the values of an expression.
    #[tactic(auto, unfolding(wat_syntax::specs::Sql::count_argument))]
    fn count_argument(&self, cursor: &mut Cursor<'_>) -> Result<Option<Expr>, Fault>
        requires nests { Nests self.now.levels (F.pre self.now.nested) (F.post self.now.nested) }
        requires open { self.now.levels ≢ 0 }
        ensures { Reads (read_within sql self.now.levels spec.count_argument cursor.old) result cursor.new }
    {
        if cursor.sees(Kind::Star) {
            cursor.word(Kind::Star)?;
            return Ok(None);
        }
        let arg = self.inner(cursor, Nest::Whole)?;
        Ok(Some(arg))
    }

    #[tactic(auto, unfolding(wat_syntax::specs::Sql::count))]
    fn count(&self, cursor: &mut Cursor<'_>) -> Result<Expr, Fault>
        requires { Nests self.now.levels (F.pre self.now.nested) (F.post self.now.nested) }
        ensures { Reads (read_within sql self.now.levels spec.count cursor.old) result cursor.new }
    {
        if self.levels == 0 {
            return Err(Fault::Syntax);
        }
        cursor.word(Kind::Count)?;
        cursor.word(Kind::Open)?;
        let arg = self.count_argument(cursor)?;
        cursor.word(Kind::Close)?;
        Ok(aggregate(self.alloc, AggregateKind::Count, arg)?)
    }

    /// SUM, MIN or MAX.
    #[tactic(auto, unfolding(wat_syntax::specs::Sql::aggregated))]
    fn aggregated(&self, cursor: &mut Cursor<'_>) -> Result<Expr, Fault>
        requires { Nests self.now.levels (F.pre self.now.nested) (F.post self.now.nested) }
        ensures { Reads (read_within sql self.now.levels spec.aggregated cursor.old) result cursor.new }
    {
        if self.levels == 0 {
            return Err(Fault::Syntax);
        }
        let kind = aggregate_word(cursor)?;
        cursor.word(Kind::Open)?;
        let arg = self.inner(cursor, Nest::Whole)?;
        cursor.word(Kind::Close)?;
        Ok(aggregate(self.alloc, kind, Some(arg))?)
    }

    #[tactic(auto, using(crate::proofs::Firsts::first_column, crate::proofs::Firsts::first_parenthesized, crate::proofs::Firsts::first_count), unfolding(wat_syntax::specs::Sql::primary))]
    fn primary(&self, cursor: &mut Cursor<'_>) -> Result<Expr, Fault>
        requires { Nests self.now.levels (F.pre self.now.nested) (F.post self.now.nested) }
        ensures { Reads (read_within sql self.now.levels spec.primary cursor.old) result cursor.new }
    {
        if cursor.sees(Kind::Number) {
            let value = cursor.number()?;
            return Ok(Expr::Literal(Value::Int(value)));
        }
        if cursor.sees(Kind::Quoted) {
            let text = cursor.quoted(self.alloc)?;
            return Ok(Expr::Literal(Value::Text(text)));
        }
        if cursor.sees(Kind::Null) {
            cursor.word(Kind::Null)?;
            return Ok(Expr::Literal(Value::Null));
        }
        if cursor.sees(Kind::Name) {
            return any_column(self.alloc, cursor);
        }
        if cursor.sees(Kind::Open) {
            return self.parenthesized(cursor);
        }
        if cursor.sees(Kind::Count) {
            return self.count(cursor);
        }
        self.aggregated(cursor)
    }

    #[tactic(auto, unfolding(wat_syntax::specs::Sql::factor))]
    fn factor(&self, cursor: &mut Cursor<'_>) -> Result<Expr, Fault>
        requires { Nests self.now.levels (F.pre self.now.nested) (F.post self.now.nested) }
        ensures { Reads (read_within sql self.now.levels spec.factor cursor.old) result cursor.new }
    {
        if cursor.sees(Kind::Minus) {
            if self.levels == 0 {
                return Err(Fault::Syntax);
            }
            cursor.word(Kind::Minus)?;
            let arg = self.inner(cursor, Nest::Factor)?;
            return Ok(unary(self.alloc, UnaryOp::Minus, arg)?);
        }
        self.primary(cursor)
    }

    #[tactic(auto, unfolding(wat_syntax::specs::Sql::term))]
    fn term(&self, cursor: &mut Cursor<'_>) -> Result<Expr, Fault>
        requires { Nests self.now.levels (F.pre self.now.nested) (F.post self.now.nested) }
        ensures { Reads (read_within sql self.now.levels spec.term cursor.old) result cursor.new }
    {
        let mut left = self.factor(cursor)?;
        'operations: for _turn in 0..cursor.len() {
            if !cursor.sees_any(&TERM_OPERATORS) {
                return Ok(left);
            }
            let op = term_operator(cursor)?;
            let right = self.factor(cursor)?;
            left = binary(self.alloc, op, left, right)?;
        }
        Ok(left)
    }

    #[tactic(auto, unfolding(wat_syntax::specs::Sql::sum))]
    fn sum(&self, cursor: &mut Cursor<'_>) -> Result<Expr, Fault>
        requires { Nests self.now.levels (F.pre self.now.nested) (F.post self.now.nested) }
        ensures { Reads (read_within sql self.now.levels spec.sum cursor.old) result cursor.new }
    {
        let mut left = self.term(cursor)?;
        'operations: for _turn in 0..cursor.len() {
            if !cursor.sees_any(&SUM_OPERATORS) {
                return Ok(left);
            }
            let op = sum_operator(cursor)?;
            let right = self.term(cursor)?;
            left = binary(self.alloc, op, left, right)?;
        }
        Ok(left)
    }

    /// A comparison of what stands before.
    #[tactic(auto, unfolding(wat_syntax::specs::Sql::compared))]
    fn compared(&self, cursor: &mut Cursor<'_>, arg: Expr) -> Result<Expr, Fault>
        requires { Nests self.now.levels (F.pre self.now.nested) (F.post self.now.nested) }
        ensures { Reads (read_applied self.now.levels spec.compared arg cursor.old) result cursor.new }
    {
        let op = comparison(cursor)?;
        let right = self.sum(cursor)?;
        Ok(binary(self.alloc, op, arg, right)?)
    }

    /// BETWEEN, of what stands before. NOT stood before the word where it is negated.
    #[tactic(auto, unfolding(wat_syntax::specs::Sql::between))]
    fn bounded(&self, cursor: &mut Cursor<'_>, negated: bool, arg: Expr) -> Result<Expr, Fault>
        requires { Nests self.now.levels (F.pre self.now.nested) (F.post self.now.nested) }
        ensures { Reads (read_ranged self.now.levels spec.between negated arg cursor.old) result cursor.new }
    {
        cursor.word(Kind::Between)?;
        let low = self.sum(cursor)?;
        cursor.word(Kind::And)?;
        let high = self.sum(cursor)?;
        Ok(between(self.alloc, arg, low, high, negated)?)
    }

    /// IN, of what stands before.
    #[tactic(auto, unfolding(wat_syntax::specs::Sql::among))]
    fn among(&self, cursor: &mut Cursor<'_>, negated: bool, arg: Expr) -> Result<Expr, Fault>
        requires { Nests self.now.levels (F.pre self.now.nested) (F.post self.now.nested) }
        ensures { Reads (read_ranged self.now.levels spec.among negated arg cursor.old) result cursor.new }
    {
        if self.levels == 0 {
            return Err(Fault::Syntax);
        }
        cursor.word(Kind::In)?;
        cursor.word(Kind::Open)?;
        let items = self.inner_list(cursor)?;
        cursor.word(Kind::Close)?;
        Ok(in_list(self.alloc, arg, items, negated)?)
    }

    #[tactic(auto, using(crate::proofs::Firsts::ranged_is))]
    fn ranged(&self, cursor: &mut Cursor<'_>, negated: bool, arg: Expr) -> Result<Expr, Fault>
        requires { Nests self.now.levels (F.pre self.now.nested) (F.post self.now.nested) }
        ensures { Reads (read_applied self.now.levels (spec.ranged negated) arg cursor.old) result cursor.new }
    {
        if cursor.sees(Kind::Between) {
            self.bounded(cursor, negated, arg)
        } else {
            self.among(cursor, negated, arg)
        }
    }

    /// The test that may stand behind a sum.
    #[tactic(auto, using(crate::proofs::Firsts::test_is))]
    fn test(&self, cursor: &mut Cursor<'_>, arg: Expr) -> Result<Expr, Fault>
        requires { Nests self.now.levels (F.pre self.now.nested) (F.post self.now.nested) }
        ensures { Reads (read_applied self.now.levels spec.test arg cursor.old) result cursor.new }
    {
        if cursor.sees_any(&COMPARISONS) {
            return self.compared(cursor, arg);
        }
        if cursor.sees(Kind::Is) {
            return null_test(self.alloc, cursor, arg);
        }
        if cursor.sees(Kind::Not) {
            cursor.word(Kind::Not)?;
            return self.ranged(cursor, true, arg);
        }
        if cursor.sees_any(&RANGES) {
            return self.ranged(cursor, false, arg);
        }
        Ok(arg)
    }

    #[tactic(auto, using(crate::proofs::Firsts::predicate_is))]
    fn predicate(&self, cursor: &mut Cursor<'_>) -> Result<Expr, Fault>
        requires { Nests self.now.levels (F.pre self.now.nested) (F.post self.now.nested) }
        ensures { Reads (read_within sql self.now.levels spec.predicate cursor.old) result cursor.new }
    {
        let arg = self.sum(cursor)?;
        self.test(cursor, arg)
    }

    #[tactic(auto, unfolding(wat_syntax::specs::Sql::negation))]
    fn negation(&self, cursor: &mut Cursor<'_>) -> Result<Expr, Fault>
        requires { Nests self.now.levels (F.pre self.now.nested) (F.post self.now.nested) }
        ensures { Reads (read_within sql self.now.levels spec.negation cursor.old) result cursor.new }
    {
        if cursor.sees(Kind::Not) {
            if self.levels == 0 {
                return Err(Fault::Syntax);
            }
            cursor.word(Kind::Not)?;
            let arg = self.inner(cursor, Nest::Negation)?;
            return Ok(unary(self.alloc, UnaryOp::Not, arg)?);
        }
        self.predicate(cursor)
    }

    #[tactic(auto, unfolding(wat_syntax::specs::Sql::conjunction))]
    fn conjunction(&self, cursor: &mut Cursor<'_>) -> Result<Expr, Fault>
        requires { Nests self.now.levels (F.pre self.now.nested) (F.post self.now.nested) }
        ensures { Reads (read_within sql self.now.levels spec.conjunction cursor.old) result cursor.new }
    {
        let mut left = self.negation(cursor)?;
        'operations: for _turn in 0..cursor.len() {
            if !cursor.sees_any(&CONJUNCTION_OPERATORS) {
                return Ok(left);
            }
            let op = conjunction_operator(cursor)?;
            let right = self.negation(cursor)?;
            left = binary(self.alloc, op, left, right)?;
        }
        Ok(left)
    }

    #[tactic(auto, unfolding(wat_syntax::specs::Sql::expression))]
    fn expression(&self, cursor: &mut Cursor<'_>) -> Result<Expr, Fault>
        requires { Nests self.now.levels (F.pre self.now.nested) (F.post self.now.nested) }
        ensures { Reads (read_within sql self.now.levels spec.expression cursor.old) result cursor.new }
    {
        let mut left = self.conjunction(cursor)?;
        'operations: for _turn in 0..cursor.len() {
            if !cursor.sees_any(&EXPRESSION_OPERATORS) {
                return Ok(left);
            }
            let op = expression_operator(cursor)?;
            let right = self.conjunction(cursor)?;
            left = binary(self.alloc, op, left, right)?;
        }
        Ok(left)
    }
}

/// The phrase of that kind, with so many levels to open inside it.
pub fn nested(
    alloc: Global,
    cursor: &mut Cursor<'_>,
    levels: usize,
    nest: Nest,
) -> Result<Expr, Fault>
    ensures { Reads (read_within sql levels (spec.rule_of nest) cursor.old) result cursor.new }
{
    let reader = Reader {
        alloc,
        levels,
        nested,
    };
    match nest {
        Nest::Whole => reader.expression(cursor),
        Nest::Negation => reader.negation(cursor),
        Nest::Factor => reader.factor(cursor),
    }
}
