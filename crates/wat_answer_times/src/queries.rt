use std::alloc::Global;
use wat_ast::{AggregateKind, Expr, Exprs, OrderBy, OrderItem, Query, SelectItems};
use wat_list::{Boxed, Items, NoMemory};

fn column(column: u8) -> Expr {
    Expr::Placed { source: 0, column }
}

fn query(
    alloc: Global,
    distinct: bool,
    items: Exprs,
    group: Exprs,
    by: OrderBy,
) -> Result<Query, NoMemory> {
    let mut order = Items::new(alloc);
    order.push(OrderItem {
        by,
        descending: true,
    })?;
    Ok(Query {
        distinct,
        items: SelectItems::List(items),
        sources: Items::new(alloc),
        filter: None,
        group,
        having: None,
        order,
    })
}

/// `SELECT v, w FROM t ORDER BY v DESC`, also with DISTINCT.
pub(crate) fn ordered(alloc: Global, distinct: bool) -> Result<Query, NoMemory> {
    let mut items = Items::new(alloc);
    items.push(column(1))?;
    items.push(column(2))?;
    let by = OrderBy::Column(column(1));
    query(alloc, distinct, items, Items::new(alloc), by)
}

/// `SELECT v, COUNT(*), SUM(k) FROM t GROUP BY v ORDER BY 2 DESC`
pub(crate) fn grouped(alloc: Global) -> Result<Query, NoMemory> {
    let mut items = Items::new(alloc);
    items.push(column(1))?;
    items.push(Expr::Aggregate {
        kind: AggregateKind::Count,
        arg: None,
    })?;
    items.push(Expr::Aggregate {
        kind: AggregateKind::Sum,
        arg: Some(Boxed::new(alloc, column(0))?),
    })?;
    let mut group = Items::new(alloc);
    group.push(column(1))?;
    query(alloc, false, items, group, OrderBy::Position(2))
}
