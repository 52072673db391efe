use crate::{Expr, Exprs, Name};
use std::alloc::Global;
use wat_list::{Copied, Items, NoMemory};

/// What a query shows of each row: all of its columns, or these expressions.
#[derive(Drop)]
pub enum SelectItems {
    Star,
    List(Exprs),
}

#[derive(Drop)]
pub struct Source {
    pub table: Name,
    pub alias: Option<Name>,
}

pub type Sources = Items<Source>;

/// What an answer is ordered by: a column, or the item at a position that counts from 1.
#[derive(Drop)]
pub enum OrderBy {
    Column(Expr),
    Position(i64),
}

#[derive(Drop)]
pub struct OrderItem {
    pub by: OrderBy,
    pub descending: bool,
}

pub type Orders = Items<OrderItem>;

#[derive(Drop)]
pub struct Query {
    pub distinct: bool,
    pub items: SelectItems,
    pub sources: Sources,
    pub filter: Option<Expr>,
    pub group: Exprs,
    pub having: Option<Expr>,
    pub order: Orders,
}

impl Copied for SelectItems {
    fn copy(&self, alloc: Global) -> Result<Self, NoMemory> {
        match self {
            SelectItems::Star => Ok(SelectItems::Star),
            SelectItems::List(exprs) => {
                let exprs = exprs.copy(alloc)?;
                Ok(SelectItems::List(exprs))
            }
        }
    }
}

impl Copied for Source {
    fn copy(&self, alloc: Global) -> Result<Self, NoMemory> {
        let table = self.table.copy(alloc)?;
        let alias = self.alias.copy(alloc)?;
        Ok(Source { table, alias })
    }
}

impl Copied for OrderBy {
    fn copy(&self, alloc: Global) -> Result<Self, NoMemory> {
        match self {
            OrderBy::Column(column) => {
                let column = column.copy(alloc)?;
                Ok(OrderBy::Column(column))
            }
            OrderBy::Position(position) => Ok(OrderBy::Position(*position)),
        }
    }
}

impl Copied for OrderItem {
    fn copy(&self, alloc: Global) -> Result<Self, NoMemory> {
        let by = self.by.copy(alloc)?;
        let descending = self.descending;
        Ok(OrderItem { by, descending })
    }
}

impl Copied for Query {
    fn copy(&self, alloc: Global) -> Result<Self, NoMemory> {
        let items = self.items.copy(alloc)?;
        let sources = self.sources.copy(alloc)?;
        let filter = self.filter.copy(alloc)?;
        let group = self.group.copy(alloc)?;
        let having = self.having.copy(alloc)?;
        let order = self.order.copy(alloc)?;
        Ok(Query {
            distinct: self.distinct,
            items,
            sources,
            filter,
            group,
            having,
            order,
        })
    }
}
