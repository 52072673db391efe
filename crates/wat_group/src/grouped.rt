ghost use Rattle.std.specs.Prelude.{◌≡◌, ◌++◌, IfOk, option_to_list};
ghost use Rattle.std.specs.List.{flat_map, list_any};
ghost use Rattle.wat_walk.specs.Lent.{lent};
ghost use Rattle.wat_walk.specs.Parts.{is_aggregated, arguments_in};
ghost use Rattle.wat_walk.specs.Queries.{listed, is_grouped};
ghost use Rattle.wat_group.specs.Query.{arguments_of};

use std::alloc::Global;
use wat_ast::{Expr, Query, SelectItems};
use wat_list::NoMemory;
use wat_walk::Aggregates;

/// Whether a query is grouped, and the arguments of its aggregates.
#[derive(Drop)]
pub struct Grouped<'a> {
    pub is_grouped: bool,
    pub arguments: Vec<&'a Expr>,
}

fn aggregates_of<'a>(alloc: Global, items: &'a SelectItems) -> Result<Aggregates<'a>, NoMemory>
    ensures found { IfOk result (λ a. a.found ≡ list_any is_aggregated (listed items.now)) }
    ensures arguments { IfOk result (λ a. lent a.arguments.items ≡ flat_map arguments_in (listed items.now)) }
{
    let none = Aggregates::new(alloc);
    match items {
        SelectItems::Star => Ok(none),
        SelectItems::List(exprs) => none.with_all(alloc, exprs.as_slice()),
    }
}

fn with_having<'a>(
    alloc: Global,
    aggregates: Aggregates<'a>,
    having: &'a Option<Expr>,
) -> Result<Vec<&'a Expr>, NoMemory>
    ensures { IfOk result (λ v. lent v.items ≡ lent aggregates.entry.arguments.items ++ flat_map arguments_in (option_to_list having.now)) }
{
    match having {
        None => Ok(aggregates.arguments),
        Some(condition) => {
            let aggregates = aggregates.with(alloc, condition)?;
            Ok(aggregates.arguments)
        }
    }
}

impl<'a> Grouped<'a> {
    pub fn of(alloc: Global, query: &'a Query) -> Result<Grouped<'a>, NoMemory>
        ensures is_grouped { IfOk result (λ g. g.is_grouped ≡ is_grouped query.now) }
        ensures arguments { IfOk result (λ g. lent g.arguments.items ≡ arguments_of query.now) }
    {
        let aggregates = aggregates_of(alloc, &query.items)?;
        let is_grouped = !query.group.is_empty() || query.having.is_some() || aggregates.found;
        let arguments = with_having(alloc, aggregates, &query.having)?;
        Ok(Grouped {
            is_grouped,
            arguments,
        })
    }
}
