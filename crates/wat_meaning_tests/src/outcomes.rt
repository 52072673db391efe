use std::alloc::Global;
use wat_ast::{Query, SelectItems};
use wat_expr::{Outcome, eval};
use wat_list::{Items, NoMemory};

/// The outcome over no row of WHERE, or of the first item where there is no WHERE.
pub(crate) fn outcome(alloc: Global, query: &Query) -> Result<Outcome, NoMemory> {
    let none = Items::new(alloc);
    if let Some(filter) = &query.filter {
        return eval(alloc, filter, &none);
    }
    match &query.items {
        SelectItems::Star => Ok(Outcome::Error),
        SelectItems::List(exprs) => match exprs.as_slice().first() {
            Some(expr) => eval(alloc, expr, &none),
            None => Ok(Outcome::Error),
        },
    }
}
