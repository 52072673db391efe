//! SELECT.

ghost use Rattle.std.specs.Prelude.{◌≡◌};
ghost use Rattle.wat_grammar.specs.Phrase.{read_within};
ghost use Rattle.wat_cursor.specs.Reading.{Reads};
ghost use Rattle.wat_syntax.specs.Sql as spec;
ghost use Rattle.wat_syntax.specs.Sql.{sql, max_nesting};

use crate::list::{Part, columns, list};
use std::alloc::Global;
use wat_ast::{Expr, Exprs, Name, OrderBy, OrderItem, Orders, Query, SelectItems, Source, Sources};
use wat_cursor::{Cursor, Fault};
use wat_expressions::{column, expression, expressions};
use wat_list::Items;
use wat_syntax::Kind;

// [ASC | DESC], and whether it is DESC.
#[tactic(auto, unfolding(wat_syntax::specs::Sql::direction))]
fn direction(cursor: &mut Cursor<'_>) -> Result<bool, Fault>
    ensures { Reads (read_within sql max_nesting spec.direction cursor.old) result cursor.new }
{
    if cursor.sees(Kind::Asc) {
        cursor.word(Kind::Asc)?;
        return Ok(false);
    }
    if cursor.sees(Kind::Desc) {
        cursor.word(Kind::Desc)?;
        return Ok(true);
    }
    Ok(false)
}

#[tactic(auto, using(crate::proofs::Firsts::first_column), unfolding(wat_syntax::specs::Sql::order_by))]
fn order_by(alloc: Global, cursor: &mut Cursor<'_>) -> Result<OrderBy, Fault>
    ensures { Reads (read_within sql max_nesting spec.order_by cursor.old) result cursor.new }
{
    if cursor.sees(Kind::Name) {
        return Ok(OrderBy::Column(column(alloc, cursor)?));
    }
    Ok(OrderBy::Position(cursor.number()?))
}

struct ListedOrder;

impl Part for ListedOrder {
    ghost use Rattle.wat_syntax.specs.Sql.{order};

    type Tree = OrderItem;

    ghost rule = { order };

    #[tactic(auto, unfolding(wat_syntax::specs::Sql::order))]
    fn read(alloc: Global, cursor: &mut Cursor<'_>) -> Result<OrderItem, Fault> {
        let by = order_by(alloc, cursor)?;
        let descending = direction(cursor)?;
        Ok(OrderItem { by, descending })
    }
}

// [[AS] name].
#[tactic(auto, unfolding(wat_syntax::specs::Sql::alias))]
fn alias(alloc: Global, cursor: &mut Cursor<'_>) -> Result<Option<Name>, Fault>
    ensures { Reads (read_within sql max_nesting spec.alias cursor.old) result cursor.new }
{
    if cursor.sees(Kind::As) {
        cursor.word(Kind::As)?;
        return Ok(Some(cursor.name(alloc)?));
    }
    if cursor.sees(Kind::Name) {
        return Ok(Some(cursor.name(alloc)?));
    }
    Ok(None)
}

struct ListedSource;

impl Part for ListedSource {
    ghost use Rattle.wat_syntax.specs.Sql.{source};

    type Tree = Source;

    ghost rule = { source };

    #[tactic(auto, unfolding(wat_syntax::specs::Sql::source))]
    fn read(alloc: Global, cursor: &mut Cursor<'_>) -> Result<Source, Fault> {
        let table = cursor.name(alloc)?;
        let alias = alias(alloc, cursor)?;
        Ok(Source { table, alias })
    }
}

fn sources(alloc: Global, cursor: &mut Cursor<'_>) -> Result<Sources, Fault>
    ensures { Reads (read_within sql max_nesting (spec.list spec.source) cursor.old) result cursor.new }
{
    list::<ListedSource>(alloc, cursor)
}

#[tactic(auto, unfolding(wat_syntax::specs::Sql::select_items))]
fn select_items(alloc: Global, cursor: &mut Cursor<'_>) -> Result<SelectItems, Fault>
    ensures { Reads (read_within sql max_nesting spec.select_items cursor.old) result cursor.new }
{
    if cursor.sees(Kind::Star) {
        cursor.word(Kind::Star)?;
        return Ok(SelectItems::Star);
    }
    Ok(SelectItems::List(expressions(alloc, cursor)?))
}

/// [WHERE expr].
#[tactic(auto, unfolding(wat_syntax::specs::Sql::filter))]
pub fn filter(alloc: Global, cursor: &mut Cursor<'_>) -> Result<Option<Expr>, Fault>
    ensures { Reads (read_within sql max_nesting spec.filter cursor.old) result cursor.new }
{
    if cursor.sees(Kind::Where) {
        cursor.word(Kind::Where)?;
        return Ok(Some(expression(alloc, cursor)?));
    }
    Ok(None)
}

// [GROUP BY column {, column}].
#[tactic(auto, unfolding(wat_syntax::specs::Sql::grouping))]
fn grouping(alloc: Global, cursor: &mut Cursor<'_>) -> Result<Exprs, Fault>
    ensures { Reads (read_within sql max_nesting spec.grouping cursor.old) result cursor.new }
{
    if cursor.sees(Kind::Group) {
        cursor.word(Kind::Group)?;
        cursor.word(Kind::By)?;
        return columns(alloc, cursor);
    }
    Ok(Items::new(alloc))
}

// [HAVING expr].
#[tactic(auto, unfolding(wat_syntax::specs::Sql::having))]
fn having(alloc: Global, cursor: &mut Cursor<'_>) -> Result<Option<Expr>, Fault>
    ensures { Reads (read_within sql max_nesting spec.having cursor.old) result cursor.new }
{
    if cursor.sees(Kind::Having) {
        cursor.word(Kind::Having)?;
        return Ok(Some(expression(alloc, cursor)?));
    }
    Ok(None)
}

// [ORDER BY order {, order}].
#[tactic(auto, unfolding(wat_syntax::specs::Sql::ordering))]
fn ordering(alloc: Global, cursor: &mut Cursor<'_>) -> Result<Orders, Fault>
    ensures { Reads (read_within sql max_nesting spec.ordering cursor.old) result cursor.new }
{
    if cursor.sees(Kind::Order) {
        cursor.word(Kind::Order)?;
        cursor.word(Kind::By)?;
        return list::<ListedOrder>(alloc, cursor);
    }
    Ok(Items::new(alloc))
}

/// SELECT and what belongs to it.
#[tactic(auto, unfolding(wat_syntax::specs::Sql::query))]
pub fn query(alloc: Global, cursor: &mut Cursor<'_>) -> Result<Query, Fault>
    ensures { Reads (read_within sql max_nesting spec.query cursor.old) result cursor.new }
{
    cursor.word(Kind::Select)?;
    let distinct = cursor.takes(Kind::Distinct);
    let items = select_items(alloc, cursor)?;
    cursor.word(Kind::From)?;
    let sources = sources(alloc, cursor)?;
    let filter = filter(alloc, cursor)?;
    let group = grouping(alloc, cursor)?;
    let having = having(alloc, cursor)?;
    let order = ordering(alloc, cursor)?;
    Ok(Query {
        distinct,
        items,
        sources,
        filter,
        group,
        having,
        order,
    })
}
