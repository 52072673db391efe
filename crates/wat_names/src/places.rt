ghost use Rattle.std.specs.Prelude.{◌≡◌, map, IfOk};
ghost use Rattle.std.specs.Option.{option_map};
ghost use Rattle.wat_walk.specs.Chain.{IsOperand};
ghost use Rattle.wat_names.specs.Places.{at_place, place_of, placed, placed_items, placed_by, placed_order, placed_query, placed_set, placed_source, placed_statement};

use std::alloc::{AllocError, Global};
use wat_ast::{
    Expr, Exprs, InsertSource, Name, OrderBy, OrderItem, Orders, Query, SelectItems, SetItem,
    SetItems, Statement,
};
use wat_list::{Boxed, Copied, Items, NoMemory};
use wat_schema::Schema;
use wat_scope::{Found, Scope, find, query_scope, table_scope};
use wat_walk::Spine;

// A tree has no place for a source past number 4294967295: that is answered as want of memory.
fn at_place(
    alloc: Global,
    qualifier: &Option<Name>,
    name: &Name,
    found: Found,
) -> Result<Expr, NoMemory>
    ensures { IfOk result (λ expr. expr ≡ at_place (qualifier.now, name.now) found) }
{
    match found {
        Found::At { source, column } => match u32::try_from(source) {
            Ok(source) => Ok(Expr::Placed { source, column }),
            Err(_) => Err(AllocError),
        },
        Found::Nowhere | Found::Several => {
            let table = qualifier.copy(alloc)?;
            let name = name.copy(alloc)?;
            Ok(Expr::Named { table, name })
        }
    }
}

#[tactic(auto, unfolding(crate::specs::Places::place_of))]
fn place_of(
    alloc: Global,
    schema: &Schema,
    scope: &Scope,
    qualifier: &Option<Name>,
    name: &Name,
) -> Result<Expr, NoMemory>
    ensures { IfOk result (λ expr. expr ≡ place_of schema.now scope.now (qualifier.now, name.now)) }
{
    let found = find(schema, scope, qualifier, name);
    at_place(alloc, qualifier, name, found)
}

#[cycle(placing)]
fn placed_box(
    alloc: Global,
    schema: &Schema,
    scope: &Scope,
    expr: &Expr,
) -> Result<Boxed<Expr>, NoMemory>
    ensures { IfOk result (λ tree. tree ≡ placed schema.now scope.now expr.now) }
{
    let tree = placed(alloc, schema, scope, expr)?;
    Boxed::new(alloc, tree)
}

#[cycle(placing)]
fn placed_list(
    alloc: Global,
    schema: &Schema,
    scope: &Scope,
    exprs: &[Expr],
) -> Result<Exprs, NoMemory>
    ensures { IfOk result (λ trees. trees ≡ map (placed schema.now scope.now) exprs.now) }
{
    let mut trees = Items::new(alloc);
    for expr in exprs {
        trees.push(placed(alloc, schema, scope, expr)?)?;
    }
    Ok(trees)
}

#[cycle(placing)]
#[tactic(auto, using(crate::proofs::PlaceLemmas::places))]
fn placed_operand(
    alloc: Global,
    schema: &Schema,
    scope: &Scope,
    expr: &Expr,
) -> Result<Expr, NoMemory>
    requires { IsOperand expr.now }
    ensures { IfOk result (λ tree. tree ≡ placed schema.now scope.now expr.now) }
{
    match expr {
        Expr::Literal(value) => {
            let value = value.copy(alloc)?;
            Ok(Expr::Literal(value))
        }
        Expr::Named { table, name } => place_of(alloc, schema, scope, table, name),
        Expr::Placed { source, column } => {
            let (source, column) = (*source, *column);
            Ok(Expr::Placed { source, column })
        }
        Expr::Unary { op, arg } => {
            let op = *op;
            let arg = placed_box(alloc, schema, scope, arg.get())?;
            Ok(Expr::Unary { op, arg })
        }
        Expr::Binary { .. } => unreachable!(),
        Expr::IsNull { arg, negated } => {
            let negated = *negated;
            let arg = placed_box(alloc, schema, scope, arg.get())?;
            Ok(Expr::IsNull { arg, negated })
        }
        Expr::Between {
            arg,
            low,
            high,
            negated,
        } => {
            let negated = *negated;
            let arg = placed_box(alloc, schema, scope, arg.get())?;
            let low = placed_box(alloc, schema, scope, low.get())?;
            let high = placed_box(alloc, schema, scope, high.get())?;
            Ok(Expr::Between {
                arg,
                low,
                high,
                negated,
            })
        }
        Expr::InList {
            arg,
            items,
            negated,
        } => {
            let negated = *negated;
            let arg = placed_box(alloc, schema, scope, arg.get())?;
            let items = placed_list(alloc, schema, scope, items.as_slice())?;
            Ok(Expr::InList {
                arg,
                items,
                negated,
            })
        }
        Expr::Aggregate { kind, arg } => {
            let kind = *kind;
            match arg {
                None => Ok(Expr::Aggregate { kind, arg: None }),
                Some(arg) => {
                    let arg = Some(placed_box(alloc, schema, scope, arg.get())?);
                    Ok(Expr::Aggregate { kind, arg })
                }
            }
        }
    }
}

// The expression with its columns in their places: operand by operand, so that a long chain takes little of the stack.
#[cycle(placing)]
fn placed(alloc: Global, schema: &Schema, scope: &Scope, expr: &Expr) -> Result<Expr, NoMemory>
    ensures { IfOk result (λ tree. tree ≡ placed schema.now scope.now expr.now) }
{
    let spine = Spine::of(alloc, expr)?;
    let mut tree = placed_operand(alloc, schema, scope, spine.first)?;
    for operation in &spine.operations {
        let right = placed_box(alloc, schema, scope, operation.right)?;
        let left = Boxed::new(alloc, tree)?;
        tree = Expr::Binary {
            op: operation.op,
            left,
            right,
        };
    }
    Ok(tree)
}

fn placed_option(
    alloc: Global,
    schema: &Schema,
    scope: &Scope,
    expr: &Option<Expr>,
) -> Result<Option<Expr>, NoMemory>
    ensures { IfOk result (λ tree. tree ≡ option_map (placed schema.now scope.now) expr.now) }
{
    match expr {
        None => Ok(None),
        Some(expr) => Ok(Some(placed(alloc, schema, scope, expr)?)),
    }
}

fn placed_items(
    alloc: Global,
    schema: &Schema,
    scope: &Scope,
    items: &SelectItems,
) -> Result<SelectItems, NoMemory>
    ensures { IfOk result (λ placed. placed ≡ placed_items schema.now scope.now items.now) }
{
    match items {
        SelectItems::Star => Ok(SelectItems::Star),
        SelectItems::List(exprs) => {
            let exprs = placed_list(alloc, schema, scope, exprs.as_slice())?;
            Ok(SelectItems::List(exprs))
        }
    }
}

fn placed_by(
    alloc: Global,
    schema: &Schema,
    scope: &Scope,
    by: &OrderBy,
) -> Result<OrderBy, NoMemory>
    ensures { IfOk result (λ placed. placed ≡ placed_by schema.now scope.now by.now) }
{
    match by {
        OrderBy::Column(column) => {
            let column = placed(alloc, schema, scope, column)?;
            Ok(OrderBy::Column(column))
        }
        OrderBy::Position(n) => Ok(OrderBy::Position(*n)),
    }
}

#[tactic(auto, unfolding(crate::specs::Places::placed_order))]
fn placed_order(
    alloc: Global,
    schema: &Schema,
    scope: &Scope,
    item: &OrderItem,
) -> Result<OrderItem, NoMemory>
    ensures { IfOk result (λ placed. placed ≡ placed_order schema.now scope.now item.now) }
{
    let descending = item.descending;
    let by = placed_by(alloc, schema, scope, &item.by)?;
    Ok(OrderItem { by, descending })
}

fn placed_orders(
    alloc: Global,
    schema: &Schema,
    scope: &Scope,
    order: &[OrderItem],
) -> Result<Orders, NoMemory>
    ensures { IfOk result (λ placed. placed ≡ map (placed_order schema.now scope.now) order.now) }
{
    let mut orders = Items::new(alloc);
    for item in order {
        orders.push(placed_order(alloc, schema, scope, item)?)?;
    }
    Ok(orders)
}

fn placed_query(alloc: Global, schema: &Schema, query: &Query) -> Result<Query, NoMemory>
    ensures { IfOk result (λ placed. placed ≡ placed_query schema.now query.now) }
{
    let scope = query_scope(alloc, schema, query)?;
    let items = placed_items(alloc, schema, &scope, &query.items)?;
    let sources = query.sources.copy(alloc)?;
    let filter = placed_option(alloc, schema, &scope, &query.filter)?;
    let group = placed_list(alloc, schema, &scope, query.group.as_slice())?;
    let having = placed_option(alloc, schema, &scope, &query.having)?;
    let order = placed_orders(alloc, schema, &scope, query.order.as_slice())?;
    Ok(Query {
        distinct: query.distinct,
        items,
        sources,
        filter,
        group,
        having,
        order,
    })
}

#[tactic(auto, unfolding(crate::specs::Places::placed_set))]
fn placed_set(
    alloc: Global,
    schema: &Schema,
    scope: &Scope,
    set: &SetItem,
) -> Result<SetItem, NoMemory>
    ensures { IfOk result (λ placed. placed ≡ placed_set schema.now scope.now set.now) }
{
    let name = set.name.copy(alloc)?;
    let value = placed(alloc, schema, scope, &set.value)?;
    Ok(SetItem { name, value })
}

fn placed_sets(
    alloc: Global,
    schema: &Schema,
    scope: &Scope,
    sets: &[SetItem],
) -> Result<SetItems, NoMemory>
    ensures { IfOk result (λ placed. placed ≡ map (placed_set schema.now scope.now) sets.now) }
{
    let mut items = Items::new(alloc);
    for set in sets {
        items.push(placed_set(alloc, schema, scope, set)?)?;
    }
    Ok(items)
}

fn placed_source(
    alloc: Global,
    schema: &Schema,
    source: &InsertSource,
) -> Result<InsertSource, NoMemory>
    ensures { IfOk result (λ placed. placed ≡ placed_source schema.now source.now) }
{
    match source {
        InsertSource::Values(values) => {
            let scope = Items::new(alloc);
            let values = placed_list(alloc, schema, &scope, values.as_slice())?;
            Ok(InsertSource::Values(values))
        }
        InsertSource::Answer(query) => {
            let query = placed_query(alloc, schema, query)?;
            Ok(InsertSource::Answer(query))
        }
    }
}

/// The statement with each column in its expressions replaced by its place. A column of a source
/// past number 4294967295 is answered by want of memory.
pub fn placed_statement(
    alloc: Global,
    schema: &Schema,
    statement: &Statement,
) -> Result<Statement, NoMemory>
    ensures { IfOk result (λ placed. placed ≡ placed_statement schema.now statement.now) }
{
    match statement {
        Statement::Insert {
            table,
            columns,
            source,
        } => {
            let table = table.copy(alloc)?;
            let columns = columns.copy(alloc)?;
            let source = placed_source(alloc, schema, source)?;
            Ok(Statement::Insert {
                table,
                columns,
                source,
            })
        }
        Statement::Update {
            table,
            sets,
            filter,
        } => {
            let scope = table_scope(alloc, schema, table)?;
            let table = table.copy(alloc)?;
            let sets = placed_sets(alloc, schema, &scope, sets.as_slice())?;
            let filter = placed_option(alloc, schema, &scope, filter)?;
            Ok(Statement::Update {
                table,
                sets,
                filter,
            })
        }
        Statement::Delete { table, filter } => {
            let scope = table_scope(alloc, schema, table)?;
            let table = table.copy(alloc)?;
            let filter = placed_option(alloc, schema, &scope, filter)?;
            Ok(Statement::Delete { table, filter })
        }
        Statement::Select(query) => {
            let query = placed_query(alloc, schema, query)?;
            Ok(Statement::Select(query))
        }
        _ => statement.copy(alloc),
    }
}
