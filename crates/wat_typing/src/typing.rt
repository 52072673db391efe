ghost use Rattle.std.specs.Prelude.{◌≡◌, IfOk};
ghost use Rattle.wat_walk.specs.Chain.{IsOperand};
ghost use Rattle.wat_types.specs.Types.{typing_of};
ghost use Rattle.wat_typing.specs.Rules.{types_of, typings, type_at};

use std::alloc::Global;
use wat_ast::Expr;
use wat_list::{Items, NoMemory};
use wat_schema::Schema;
use wat_scope::{Scope, columns_of};
use wat_types::{ExprType, Typing};
use wat_walk::Spine;

/// The type of the table's column with that number, and that of NULL where there is none.
pub fn type_at(schema: &Schema, table: Option<u32>, column: u8) -> ExprType
    ensures { result ≡ type_at schema.now table column }
{
    match columns_of(schema, table).get(column as usize) {
        Some(column) => ExprType::of(column.kind),
        None => ExprType::Null,
    }
}

fn column_type(schema: &Schema, scope: &Scope, source: u32, column: u8) -> ExprType
    ensures { result ≡ types_of schema.now scope.now source column }
{
    let table = match scope.get(source as usize) {
        Some(visible) => visible.table,
        None => None,
    };
    type_at(schema, table, column)
}

/// What is known of each of the expressions.
#[cycle(typings)]
pub fn typings(
    alloc: Global,
    schema: &Schema,
    scope: &Scope,
    exprs: &[Expr],
) -> Result<Items<Typing>, NoMemory>
    ensures { IfOk result (λ all. all ≡ typings schema.now scope.now exprs.now) }
{
    let mut all = Items::new(alloc);
    for expr in exprs {
        all.push(typing_of(alloc, schema, scope, expr)?)?;
    }
    Ok(all)
}

#[cycle(typings)]
#[tactic(auto, using(wat_types::proofs::TypeLemmas::typings))]
fn operand_typing(
    alloc: Global,
    schema: &Schema,
    scope: &Scope,
    expr: &Expr,
) -> Result<Typing, NoMemory>
    requires { IsOperand expr.now }
    ensures { IfOk result (λ typing. typing ≡ typing_of (types_of schema.now scope.now) expr.now) }
{
    match expr {
        Expr::Literal(value) => Ok(Typing::plain(ExprType::of_value(value))),
        Expr::Named { .. } => Ok(Typing::plain(ExprType::Null)),
        Expr::Placed { source, column } => {
            Ok(Typing::plain(column_type(schema, scope, *source, *column)))
        }
        Expr::Unary { op, arg } => {
            let arg = typing_of(alloc, schema, scope, arg.get())?;
            Ok(Typing::unary(*op, arg))
        }
        Expr::Binary { .. } => unreachable!(),
        Expr::IsNull { arg, .. } => {
            let arg = typing_of(alloc, schema, scope, arg.get())?;
            Ok(Typing::null_test(arg))
        }
        Expr::Between { arg, low, high, .. } => {
            let arg = typing_of(alloc, schema, scope, arg.get())?;
            let low = typing_of(alloc, schema, scope, low.get())?;
            let high = typing_of(alloc, schema, scope, high.get())?;
            Ok(Typing::between(arg, low, high))
        }
        Expr::InList { arg, items, .. } => {
            let arg = typing_of(alloc, schema, scope, arg.get())?;
            let items = typings(alloc, schema, scope, items.as_slice())?;
            Ok(Typing::in_list(arg, items.as_slice()))
        }
        Expr::Aggregate { kind, arg } => match arg {
            None => Ok(Typing::count_all()),
            Some(arg) => {
                let arg = typing_of(alloc, schema, scope, arg.get())?;
                Ok(Typing::aggregate(*kind, arg))
            }
        },
    }
}

/// What is known of an expression: operand by operand, so that a long chain takes little of the stack.
#[cycle(typings)]
pub fn typing_of(
    alloc: Global,
    schema: &Schema,
    scope: &Scope,
    expr: &Expr,
) -> Result<Typing, NoMemory>
    ensures { IfOk result (λ typing. typing ≡ typing_of (types_of schema.now scope.now) expr.now) }
{
    let spine = Spine::of(alloc, expr)?;
    let mut left = operand_typing(alloc, schema, scope, spine.first)?;
    for operation in &spine.operations {
        let right = typing_of(alloc, schema, scope, operation.right)?;
        left = Typing::binary(operation.op, left, right);
    }
    Ok(left)
}
