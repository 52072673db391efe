ghost use Rattle.std.specs.Prelude.{◌≡◌, ◌∷◌, ◌≤◌, OnOk};
ghost use Rattle.std.specs.List.{flat_map};
ghost use Rattle.wat_ast.specs.declared.expression.Expr.TheVariants as e;
ghost use Rattle.wat_spell.specs.Growing.{put, puts};
ghost use Rattle.wat_spell.specs.Spelling as spec;

use crate::list::Part;
use crate::symbol::Symbol;
use crate::writing::Writing;
use wat_ast::{AggregateKind, BinaryOp, Expr, Name, UnaryOp};
use wat_list::{Boxed, NoMemory};
use wat_value::Value;
use wat_word::Keyword;

// How tightly the outermost operator of an expression binds.
const DISJUNCTION: u8 = 0;

const CONJUNCTION: u8 = 1;

const NEGATION: u8 = 2;

const TEST: u8 = 3;

const SUM: u8 = 4;

const TERM: u8 = 5;

const FACTOR: u8 = 6;

const PRIMARY: u8 = 7;

/// An operator and its right operand.
#[derive(Drop)]
struct Operation<'a> {
    op: BinaryOp,
    right: &'a Expr,
}

fn unary_rank(op: UnaryOp) -> u8
    ensures { result ≡ spec.unary_rank op }
{
    match op {
        UnaryOp::Not => NEGATION,
        UnaryOp::Minus => FACTOR,
    }
}

fn operator_rank(op: BinaryOp) -> u8
    ensures value { result ≡ spec.operator_rank op }
    ensures bound { result ≤ 5 }
{
    match op {
        BinaryOp::Or => DISJUNCTION,
        BinaryOp::And => CONJUNCTION,
        BinaryOp::Equal
        | BinaryOp::Unequal
        | BinaryOp::Less
        | BinaryOp::AtMost
        | BinaryOp::Greater
        | BinaryOp::AtLeast => TEST,
        BinaryOp::Add | BinaryOp::Subtract | BinaryOp::Concat => SUM,
        BinaryOp::Multiply | BinaryOp::Divide => TERM,
    }
}

/// What the place of the left operand asks. A chain is grouped to the left, so it stands there as it is.
fn left_rank(op: BinaryOp) -> u8
    ensures { result ≡ spec.left_rank op }
{
    let rank = operator_rank(op);
    if rank < TEST { rank } else { rank.max(SUM) }
}

fn right_rank(op: BinaryOp) -> u8
    ensures { result ≡ spec.right_rank op }
{
    operator_rank(op) + 1
}

fn literal_rank(value: &Value) -> u8
    ensures { result ≡ (spec.literal value.now).rank }
{
    match value {
        Value::Int(number) if *number < 0 => FACTOR,
        _ => PRIMARY,
    }
}

/// How tightly the outermost operator binds.
#[tactic(auto, using(crate::proofs::Spelled::spelled_rules))]
fn rank(expr: &Expr) -> u8
    ensures { result ≡ (spec.spelled expr.now).rank }
{
    match expr {
        Expr::Literal(value) => literal_rank(value),
        Expr::Named { .. } | Expr::Placed { .. } | Expr::Aggregate { .. } => PRIMARY,
        Expr::Unary { op, .. } => unary_rank(*op),
        Expr::Binary { op, .. } => operator_rank(*op),
        Expr::IsNull { .. } | Expr::Between { .. } | Expr::InList { .. } => TEST,
    }
}

fn unary(writing: &mut Writing, op: UnaryOp) -> Result<(), NoMemory>
    ensures { OnOk result (writing.new ≡ put writing.old (spec.unary_token op)) }
{
    match op {
        UnaryOp::Not => writing.word(Keyword::Not),
        UnaryOp::Minus => writing.symbol(Symbol::Minus),
    }
}

fn operator(writing: &mut Writing, op: BinaryOp) -> Result<(), NoMemory>
    ensures { OnOk result (writing.new ≡ put writing.old (spec.operator_token op)) }
{
    match op {
        BinaryOp::Or => writing.word(Keyword::Or),
        BinaryOp::And => writing.word(Keyword::And),
        BinaryOp::Equal => writing.symbol(Symbol::Equal),
        BinaryOp::Unequal => writing.symbol(Symbol::Unequal),
        BinaryOp::Less => writing.symbol(Symbol::Less),
        BinaryOp::AtMost => writing.symbol(Symbol::AtMost),
        BinaryOp::Greater => writing.symbol(Symbol::Greater),
        BinaryOp::AtLeast => writing.symbol(Symbol::AtLeast),
        BinaryOp::Add => writing.symbol(Symbol::Plus),
        BinaryOp::Subtract => writing.symbol(Symbol::Minus),
        BinaryOp::Concat => writing.symbol(Symbol::Concat),
        BinaryOp::Multiply => writing.symbol(Symbol::Star),
        BinaryOp::Divide => writing.symbol(Symbol::Slash),
    }
}

fn aggregate_word(kind: AggregateKind) -> Keyword
    ensures { result ≡ spec.aggregate_word kind }
{
    match kind {
        AggregateKind::Count => Keyword::Count,
        AggregateKind::Sum => Keyword::Sum,
        AggregateKind::Min => Keyword::Min,
        AggregateKind::Max => Keyword::Max,
    }
}

fn literal(writing: &mut Writing, value: &Value) -> Result<(), NoMemory>
    ensures { OnOk result (writing.new ≡ puts writing.old (spec.literal value.now).tokens) }
{
    match value {
        Value::Null => writing.word(Keyword::Null),
        Value::Int(number) => writing.integer(*number),
        Value::Text(text) => writing.quoted(text),
    }
}

fn column(writing: &mut Writing, table: &Option<Name>, name: &Name) -> Result<(), NoMemory>
    ensures { OnOk result (writing.new ≡ puts writing.old (spec.column table.now name.now)) }
{
    if let Some(table) = table {
        writing.name(table)?;
        writing.symbol(Symbol::Dot)?;
        return writing.name(name);
    }
    writing.name(name)
}

/// Writes the place of a column that was found, which no text gives.
fn place(writing: &mut Writing, source: u32, column: u8) -> Result<(), NoMemory>
    ensures { OnOk result (writing.new ≡ puts writing.old (spec.column_place source column)) }
{
    writing.number(u64::from(source))?;
    writing.symbol(Symbol::Dot)?;
    writing.number(u64::from(column))
}

/// In parentheses, where the expression binds less tightly than its place asks.
#[cycle(spelling)]
#[tactic(auto, using(crate::proofs::Writes::puts_append))]
fn placed(writing: &mut Writing, place: u8, expr: &Expr) -> Result<(), NoMemory>
    ensures { OnOk result (writing.new ≡ puts writing.old (spec.placed place (spec.spelled expr.now)).tokens) }
{
    if rank(expr) < place {
        writing.symbol(Symbol::Open)?;
        expression(writing, expr)?;
        return writing.symbol(Symbol::Close);
    }
    expression(writing, expr)
}

// The operations wait for the first operand in a list, so that a long chain takes little of the stack.
#[cycle(spelling)]
#[tactic(auto, using(crate::proofs::Writes::puts_append))]
fn chain(writing: &mut Writing, op: BinaryOp, left: &Expr, right: &Expr) -> Result<(), NoMemory>
    ensures { OnOk result (writing.new ≡ puts writing.old (spec.expression (e.Binary op left.now right.now))) }
{
    let mut operations = Vec::new(writing.alloc());
    operations.push(Operation { op, right })?;
    let mut place = left_rank(op);
    let mut first = left;
    'down: loop {
        match first {
            Expr::Binary { op, left, right } if operator_rank(*op) >= place => {
                operations.push(Operation {
                    op: *op,
                    right: right.get(),
                })?;
                place = left_rank(*op);
                first = left.get();
            }
            _ => break,
        }
    }
    placed(writing, place, first)?;
    'up: while let Some(operation) = operations.pop() {
        operator(writing, operation.op)?;
        placed(writing, right_rank(operation.op), operation.right)?;
    }
    Ok(())
}

#[cycle(spelling)]
#[tactic(auto, using(crate::proofs::Writes::puts_append))]
fn more_expressions(writing: &mut Writing, exprs: &[Expr]) -> Result<(), NoMemory>
    ensures { OnOk result (writing.new ≡ puts writing.old (flat_map (λ expr. spec.comma ∷ spec.expression expr) exprs.now)) }
{
    for expr in exprs {
        writing.symbol(Symbol::Comma)?;
        expression(writing, expr)?;
    }
    Ok(())
}

#[cycle(spelling)]
#[tactic(auto, using(crate::proofs::Writes::puts_append))]
fn expressions(writing: &mut Writing, exprs: &[Expr]) -> Result<(), NoMemory>
    ensures { OnOk result (writing.new ≡ puts writing.old (spec.with_commas spec.expression exprs.now)) }
{
    match exprs {
        [] => Ok(()),
        [first, more @ ..] => {
            expression(writing, first)?;
            more_expressions(writing, more)
        }
    }
}

/// A star, where the aggregate has no argument.
#[cycle(spelling)]
fn argument(writing: &mut Writing, arg: &Option<Boxed<Expr>>) -> Result<(), NoMemory>
    ensures { OnOk result (writing.new ≡ puts writing.old (spec.argument_tokens arg.now)) }
{
    match arg {
        None => writing.symbol(Symbol::Star),
        Some(arg) => expression(writing, arg.get()),
    }
}

#[cycle(spelling)]
#[tactic(auto, using(crate::proofs::Writes::puts_append, crate::proofs::Spelled::expression_rules))]
fn expression(writing: &mut Writing, expr: &Expr) -> Result<(), NoMemory>
    ensures { OnOk result (writing.new ≡ puts writing.old (spec.expression expr.now)) }
{
    match expr {
        Expr::Literal(value) => literal(writing, value),
        Expr::Named { table, name } => column(writing, table, name),
        Expr::Placed { source, column } => place(writing, *source, *column),
        Expr::Unary { op, arg } => {
            unary(writing, *op)?;
            placed(writing, unary_rank(*op), arg.get())
        }
        Expr::Binary { op, left, right } => chain(writing, *op, left.get(), right.get()),
        Expr::IsNull { arg, negated } => {
            placed(writing, SUM, arg.get())?;
            writing.word(Keyword::Is)?;
            writing.word_if(*negated, Keyword::Not)?;
            writing.word(Keyword::Null)
        }
        Expr::Between {
            arg,
            low,
            high,
            negated,
        } => {
            placed(writing, SUM, arg.get())?;
            writing.word_if(*negated, Keyword::Not)?;
            writing.word(Keyword::Between)?;
            placed(writing, SUM, low.get())?;
            writing.word(Keyword::And)?;
            placed(writing, SUM, high.get())
        }
        Expr::InList {
            arg,
            items,
            negated,
        } => {
            placed(writing, SUM, arg.get())?;
            writing.word_if(*negated, Keyword::Not)?;
            writing.word(Keyword::In)?;
            writing.symbol(Symbol::Open)?;
            expressions(writing, items.as_slice())?;
            writing.symbol(Symbol::Close)
        }
        Expr::Aggregate { kind, arg } => {
            writing.word(aggregate_word(*kind))?;
            writing.symbol(Symbol::OpenTight)?;
            argument(writing, arg)?;
            writing.symbol(Symbol::Close)
        }
    }
}

impl Part for Expr {
    ghost use Rattle.wat_spell.specs.Spelling.{expression};

    ghost tokens = { expression };

    fn write(&self, writing: &mut Writing) -> Result<(), NoMemory> {
        expression(writing, self)
    }
}
