ghost use Rattle.std.specs.Prelude.{◌≡◌, ◌++◌, option_to_list, OnOk};
ghost use Rattle.std.specs.List.{filter_map};
ghost use Rattle.wat_walk.specs.Chain.{IsOperand};
ghost use Rattle.wat_walk.specs.Parts.{bare_in};
ghost use Rattle.wat_walk.specs.Queries.{listed, order_column};
ghost use Rattle.wat_typing.specs.Rules.{bare_columns};

use std::alloc::Global;
use wat_ast::{Expr, OrderBy, OrderItem, SelectItems};
use wat_list::{Items, NoMemory};
use wat_walk::Spine;

/// A column in its place: the number of its source, and its number.
pub type Spot = (u32, u8);

/// Adds the columns outside aggregates of these expressions.
#[cycle(bare)]
pub fn add_bare_list(alloc: Global, exprs: &[Expr], spots: &mut Items<Spot>) -> Result<(), NoMemory>
    ensures { OnOk result (spots.new ≡ spots.old ++ bare_columns exprs.now) }
{
    for expr in exprs {
        add_bare(alloc, expr, spots)?;
    }
    Ok(())
}

#[cycle(bare)]
#[tactic(auto, using(crate::proofs::BareLemmas::bare))]
fn add_bare_operand(alloc: Global, expr: &Expr, spots: &mut Items<Spot>) -> Result<(), NoMemory>
    requires { IsOperand expr.now }
    ensures { OnOk result (spots.new ≡ spots.old ++ bare_in expr.now) }
{
    match expr {
        Expr::Literal(_) => Ok(()),
        Expr::Named { .. } => Ok(()),
        Expr::Placed { source, column } => spots.push((*source, *column)),
        Expr::Unary { arg, .. } => add_bare(alloc, arg.get(), spots),
        Expr::Binary { .. } => unreachable!(),
        Expr::IsNull { arg, .. } => add_bare(alloc, arg.get(), spots),
        Expr::Between { arg, low, high, .. } => {
            add_bare(alloc, arg.get(), spots)?;
            add_bare(alloc, low.get(), spots)?;
            add_bare(alloc, high.get(), spots)
        }
        Expr::InList { arg, items, .. } => {
            add_bare(alloc, arg.get(), spots)?;
            add_bare_list(alloc, items.as_slice(), spots)
        }
        Expr::Aggregate { .. } => Ok(()),
    }
}

// Operand by operand, so that a long chain takes little of the stack.
#[cycle(bare)]
fn add_bare(alloc: Global, expr: &Expr, spots: &mut Items<Spot>) -> Result<(), NoMemory>
    ensures { OnOk result (spots.new ≡ spots.old ++ bare_in expr.now) }
{
    let spine = Spine::of(alloc, expr)?;
    add_bare_operand(alloc, spine.first, spots)?;
    for operation in &spine.operations {
        add_bare(alloc, operation.right, spots)?;
    }
    Ok(())
}

/// Adds those of the items that a query lists.
pub fn add_bare_items(
    alloc: Global,
    items: &SelectItems,
    spots: &mut Items<Spot>,
) -> Result<(), NoMemory>
    ensures { OnOk result (spots.new ≡ spots.old ++ bare_columns (listed items.now)) }
{
    match items {
        SelectItems::Star => Ok(()),
        SelectItems::List(exprs) => add_bare_list(alloc, exprs.as_slice(), spots),
    }
}

/// Adds those of an expression, where there is one.
pub fn add_bare_option(
    alloc: Global,
    expr: &Option<Expr>,
    spots: &mut Items<Spot>,
) -> Result<(), NoMemory>
    ensures { OnOk result (spots.new ≡ spots.old ++ bare_columns (option_to_list expr.now)) }
{
    match expr {
        None => Ok(()),
        Some(expr) => add_bare(alloc, expr, spots),
    }
}

fn add_bare_order(alloc: Global, item: &OrderItem, spots: &mut Items<Spot>) -> Result<(), NoMemory>
    ensures { OnOk result (spots.new ≡ spots.old ++ bare_columns (option_to_list (order_column item.now))) }
{
    match &item.by {
        OrderBy::Column(column) => add_bare(alloc, column, spots),
        OrderBy::Position(_) => Ok(()),
    }
}

/// Adds those that ORDER BY names.
pub fn add_bare_orders(
    alloc: Global,
    order: &[OrderItem],
    spots: &mut Items<Spot>,
) -> Result<(), NoMemory>
    ensures { OnOk result (spots.new ≡ spots.old ++ bare_columns (filter_map order_column order.now)) }
{
    for item in order {
        add_bare_order(alloc, item, spots)?;
    }
    Ok(())
}
