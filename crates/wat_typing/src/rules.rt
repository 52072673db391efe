ghost use Rattle.std.specs.Prelude.{◌≡◌, ℕ, ◌==◌, ◌||◌, not, [], ◌++◌, map, length, unwrap_or, option_to_list, IfOk, OnOk};
ghost use Rattle.std.specs.List.{filter_map, flat_map, list_any};
ghost use Rattle.std.specs.Str.{bytes_eq};
ghost use Rattle.wat_walk.specs.Parts.{is_aggregated};
ghost use Rattle.wat_walk.specs.Queries.{is_grouped, listed, order_column};
ghost use Rattle.wat_schema.specs.Catalog.{repeats};
ghost use Rattle.wat_types.specs.Types.{smallest, any_aggregated};
ghost use Rattle.wat_typing.specs.Rules.{types_in, type_named, typings, value_rule, test_rule, values_rule, tests_rule, columns_rule, query_typings, is_star, spot_eq, has_other, shown_columns, breaks_grouping, shown_types, is_bad_number, is_bad_position, has_bad_position, query_rules, query_rule, goes_into, misfits, given_types, insert_rule, kinds, given_rule, set_names, set_values, update_rule, delete_rule};

use crate::bare::{Spot, add_bare_items, add_bare_list, add_bare_option, add_bare_orders};
use crate::typing::{type_at, typing_of, typings};
use indexmap::IndexSet;
use std::alloc::Global;
use wat_ast::{Expr, InsertSource, Name, Names, OrderBy, OrderItem, Query, SelectItems, SetItem};
use wat_list::{Copied, Items, NoMemory};
use wat_schema::{NameSet, Schema};
use wat_scope::{Scope, column_in, columns_of, query_scope, table_scope};
use wat_types::{ExprType, Typing, any_aggregated, breaks, lesser, smallest};

/// What is known of the expressions of a query, clause by clause.
#[derive(Drop)]
pub struct QueryTypings {
    pub items: Items<Typing>,
    pub filter: Items<Typing>,
    pub group: Items<Typing>,
    pub having: Items<Typing>,
    pub order: Items<Typing>,
}

pub type Types = Items<ExprType>;

// The types of columns.

fn types_in(alloc: Global, schema: &Schema, table: Option<u32>) -> Result<Types, NoMemory>
    ensures { IfOk result (λ types. types ≡ types_in schema.now table) }
{
    let mut types = Items::new(alloc);
    for column in columns_of(schema, table) {
        types.push(ExprType::of(column.kind))?;
    }
    Ok(types)
}

#[tactic(auto, unfolding(crate::specs::Rules::type_named))]
fn type_named(schema: &Schema, table: Option<u32>, name: &Name) -> ExprType
    ensures { result ≡ type_named schema.now table name.now }
{
    match column_in(schema, table, name) {
        Some(column) => type_at(schema, table, column),
        None => ExprType::Null,
    }
}

fn types_named(
    alloc: Global,
    schema: &Schema,
    table: Option<u32>,
    names: &[Name],
) -> Result<Types, NoMemory>
    ensures { IfOk result (λ types. types ≡ map (type_named schema.now table) names.now) }
{
    let mut types = Items::new(alloc);
    for name in names {
        types.push(type_named(schema, table, name))?;
    }
    Ok(types)
}

fn kinds(alloc: Global, typings: &[Typing]) -> Result<Types, NoMemory>
    ensures { IfOk result (λ types. types ≡ kinds typings.now) }
{
    let mut types = Items::new(alloc);
    for typing in typings {
        types.push(typing.kind)?;
    }
    Ok(types)
}

// What any statement breaks.

#[tactic(auto, unfolding(crate::specs::Rules::value_rule))]
fn value_rule(value: Typing) -> Option<u8>
    ensures { result ≡ value_rule value }
{
    lesser(value.broken, breaks(5, value.kind.is_condition()))
}

#[tactic(auto, unfolding(crate::specs::Rules::test_rule))]
fn test_rule(test: Typing) -> Option<u8>
    ensures { result ≡ test_rule test }
{
    lesser(test.broken, breaks(5, !test.kind.is_condition()))
}

fn values_rule(values: &[Typing]) -> Option<u8>
    ensures { result ≡ values_rule values.now }
{
    let mut least = None;
    for value in values {
        least = lesser(least, value_rule(*value));
    }
    least
}

fn tests_rule(tests: &[Typing]) -> Option<u8>
    ensures { result ≡ tests_rule tests.now }
{
    let mut least = None;
    for test in tests {
        least = lesser(least, test_rule(*test));
    }
    least
}

fn columns_rule(columns: &[Typing]) -> Option<u8>
    ensures { result ≡ columns_rule columns.now }
{
    let mut least = None;
    for column in columns {
        least = lesser(least, column.broken);
    }
    least
}

fn option_typings(
    alloc: Global,
    schema: &Schema,
    scope: &Scope,
    expr: &Option<Expr>,
) -> Result<Items<Typing>, NoMemory>
    ensures { IfOk result (λ all. all ≡ typings schema.now scope.now (option_to_list expr.now)) }
{
    let mut all = Items::new(alloc);
    match expr {
        None => Ok(all),
        Some(expr) => {
            all.push(typing_of(alloc, schema, scope, expr)?)?;
            Ok(all)
        }
    }
}

// Queries.

fn add_order(
    alloc: Global,
    schema: &Schema,
    scope: &Scope,
    item: &OrderItem,
    all: &mut Items<Typing>,
) -> Result<(), NoMemory>
    ensures { OnOk result (all.new ≡ all.old ++ typings schema.now scope.now (option_to_list (order_column item.now))) }
{
    match &item.by {
        OrderBy::Column(column) => all.push(typing_of(alloc, schema, scope, column)?),
        OrderBy::Position(_) => Ok(()),
    }
}

fn order_typings(
    alloc: Global,
    schema: &Schema,
    scope: &Scope,
    order: &[OrderItem],
) -> Result<Items<Typing>, NoMemory>
    ensures { IfOk result (λ all. all ≡ typings schema.now scope.now (filter_map order_column order.now)) }
{
    let mut all = Items::new(alloc);
    for item in order {
        add_order(alloc, schema, scope, item, &mut all)?;
    }
    Ok(all)
}

fn item_typings(
    alloc: Global,
    schema: &Schema,
    scope: &Scope,
    items: &SelectItems,
) -> Result<Items<Typing>, NoMemory>
    ensures { IfOk result (λ all. all ≡ typings schema.now scope.now (listed items.now)) }
{
    match items {
        SelectItems::Star => Ok(Items::new(alloc)),
        SelectItems::List(exprs) => typings(alloc, schema, scope, exprs.as_slice()),
    }
}

fn query_typings(
    alloc: Global,
    schema: &Schema,
    scope: &Scope,
    query: &Query,
) -> Result<QueryTypings, NoMemory>
    ensures typings { IfOk result (λ t. t ≡ query_typings schema.now scope.now query.now) }
    ensures aggregates { IfOk result (λ t. any_aggregated t.items ≡ list_any is_aggregated (listed query.now.items)) }
{
    let items = item_typings(alloc, schema, scope, &query.items)?;
    let filter = option_typings(alloc, schema, scope, &query.filter)?;
    let group = typings(alloc, schema, scope, query.group.as_slice())?;
    let having = option_typings(alloc, schema, scope, &query.having)?;
    let order = order_typings(alloc, schema, scope, query.order.as_slice())?;
    Ok(QueryTypings {
        items,
        filter,
        group,
        having,
        order,
    })
}

fn is_star(items: &SelectItems) -> bool
    ensures { result ≡ is_star items.now }
{
    match items {
        SelectItems::Star => true,
        SelectItems::List(_) => false,
    }
}

// An aggregate stands in an item where its typing says so.
fn is_grouped(query: &Query, items: &[Typing]) -> bool
    requires { any_aggregated items.now ≡ list_any is_aggregated (listed query.now.items) }
    ensures { result ≡ is_grouped query.now }
{
    0 < query.group.len() || query.having.is_some() || any_aggregated(items)
}

/// The columns, in a set, where one of many is looked up about as fast as one of few.
fn spot_set(alloc: Global, columns: &[Spot]) -> Result<IndexSet<Spot>, NoMemory>
    ensures { IfOk result (λ set. (column : ℕ × ℕ) → list_any (spot_eq column) set.keys ≡ list_any (spot_eq column) columns.now) }
{
    let mut set = IndexSet::new(alloc);
    for column in columns {
        let spot = *column;
        set.insert(spot)?;
    }
    Ok(set)
}

fn has_other_than(keys: &IndexSet<Spot>, columns: &[Spot]) -> bool
    ensures { result ≡ has_other keys.now.keys columns.now }
{
    columns.iter().any(|column| !keys.contains(column))
}

fn has_other(alloc: Global, keys: &[Spot], columns: &[Spot]) -> Result<bool, NoMemory>
    ensures { IfOk result (λ other. other ≡ has_other keys.now columns.now) }
{
    let keys = spot_set(alloc, keys)?;
    Ok(has_other_than(&keys, columns))
}

fn shown_columns(alloc: Global, query: &Query) -> Result<Items<Spot>, NoMemory>
    ensures { IfOk result (λ spots. spots ≡ shown_columns query.now) }
{
    let mut spots = Items::new(alloc);
    add_bare_items(alloc, &query.items, &mut spots)?;
    add_bare_option(alloc, &query.having, &mut spots)?;
    add_bare_orders(alloc, query.order.as_slice(), &mut spots)?;
    Ok(spots)
}

#[tactic(auto, unfolding(crate::specs::Rules::breaks_grouping))]
fn breaks_grouping(alloc: Global, query: &Query, items: &[Typing]) -> Result<bool, NoMemory>
    requires { any_aggregated items.now ≡ list_any is_aggregated (listed query.now.items) }
    ensures { IfOk result (λ broken. broken ≡ breaks_grouping query.now) }
{
    if !is_grouped(query, items) {
        return Ok(false);
    }
    if is_star(&query.items) {
        return Ok(true);
    }
    let mut keys = Items::new(alloc);
    add_bare_list(alloc, query.group.as_slice(), &mut keys)?;
    let columns = shown_columns(alloc, query)?;
    has_other(alloc, keys.as_slice(), columns.as_slice())
}

fn scope_types(alloc: Global, schema: &Schema, scope: &Scope) -> Result<Types, NoMemory>
    ensures { IfOk result (λ types. types ≡ flat_map (λ visible. types_in schema.now visible.table) scope.now) }
{
    let mut types = Items::new(alloc);
    for visible in scope.as_slice() {
        types.append(types_in(alloc, schema, visible.table)?)?;
    }
    Ok(types)
}

#[tactic(auto, unfolding(crate::specs::Rules::shown_types))]
fn shown_types(
    alloc: Global,
    schema: &Schema,
    scope: &Scope,
    items: &SelectItems,
    typings: &[Typing],
) -> Result<Types, NoMemory>
    ensures { IfOk result (λ types. types ≡ shown_types schema.now scope.now items.now typings.now) }
{
    match items {
        SelectItems::Star => scope_types(alloc, schema, scope),
        SelectItems::List(_) => kinds(alloc, typings),
    }
}

fn is_bad_number(columns: usize, n: i64) -> bool
    ensures { result ≡ is_bad_number columns n }
{
    n < 1 || n as usize > columns
}

fn is_bad_position(columns: usize, by: &OrderBy) -> bool
    ensures { result ≡ is_bad_position columns by.now }
{
    match by {
        OrderBy::Column(_) => false,
        OrderBy::Position(n) => is_bad_number(columns, *n),
    }
}

#[tactic(auto, unfolding(crate::specs::Rules::has_bad_position))]
fn has_bad_position(columns: usize, order: &[OrderItem]) -> bool
    ensures { result ≡ has_bad_position columns order.now }
{
    order.iter().any(|item| is_bad_position(columns, &item.by))
}

// Whether an aggregate stands in WHERE, GROUP BY or ORDER BY.
fn has_stray_aggregate(t: &QueryTypings) -> bool
    ensures { result ≡ (any_aggregated t.now.filter || any_aggregated t.now.group || any_aggregated t.now.order) }
{
    any_aggregated(t.filter.as_slice())
        || any_aggregated(t.group.as_slice())
        || any_aggregated(t.order.as_slice())
}

fn query_rules(
    alloc: Global,
    schema: &Schema,
    scope: &Scope,
    query: &Query,
    t: &QueryTypings,
) -> Result<Option<u8>, NoMemory>
    requires { any_aggregated t.now.items ≡ list_any is_aggregated (listed query.now.items) }
    ensures { IfOk result (λ rule. rule ≡ smallest (query_rules schema.now scope.now query.now t.now)) }
{
    let types = shown_types(alloc, schema, scope, &query.items, t.items.as_slice())?;
    let grouping = breaks_grouping(alloc, query, t.items.as_slice())?;
    Ok(smallest(&[
        values_rule(t.items.as_slice()),
        tests_rule(t.filter.as_slice()),
        columns_rule(t.group.as_slice()),
        tests_rule(t.having.as_slice()),
        columns_rule(t.order.as_slice()),
        breaks(6, has_stray_aggregate(t)),
        breaks(7, grouping),
        breaks(8, has_bad_position(types.len(), query.order.as_slice())),
        breaks(12, query.sources.len() > 8),
    ]))
}

/// The smallest rule that a query breaks, if it breaks one.
#[tactic(auto, unfolding(crate::specs::Rules::query_rule))]
pub fn query_rule(alloc: Global, schema: &Schema, query: &Query) -> Result<Option<u8>, NoMemory>
    ensures { IfOk result (λ rule. rule ≡ query_rule schema.now query.now) }
{
    let scope = query_scope(alloc, schema, query)?;
    let t = query_typings(alloc, schema, &scope, query)?;
    query_rules(alloc, schema, &scope, query, &t)
}

// Values that go into columns.

fn goes_into(value: ExprType, column: ExprType) -> bool
    ensures { result ≡ goes_into value column }
{
    match column {
        ExprType::Integer => value.is_integer(),
        ExprType::Text => value.is_text(),
        ExprType::Condition | ExprType::Null => true,
    }
}

fn misfits(columns: &[ExprType], values: &[ExprType]) -> bool
    ensures { result ≡ misfits columns.now values.now }
{
    columns
        .iter()
        .zip(values.iter())
        .any(|(column, value)| !goes_into(*value, *column))
}

fn repeats(alloc: Global, names: &[Name]) -> Result<bool, NoMemory>
    ensures { IfOk result (λ again. again ≡ repeats bytes_eq names.now) }
{
    let mut before = NameSet::new(alloc);
    for name in names {
        let fresh = before.add(name.as_str())?;
        if !fresh {
            return Ok(true);
        }
    }
    Ok(false)
}

fn repeats_named(alloc: Global, columns: &Option<Names>) -> Result<bool, NoMemory>
    ensures { IfOk result (λ again. again ≡ repeats bytes_eq (unwrap_or columns.now [])) }
{
    match columns {
        None => Ok(false),
        Some(names) => repeats(alloc, names.as_slice()),
    }
}

fn given_types(
    alloc: Global,
    schema: &Schema,
    table: Option<u32>,
    columns: &Option<Names>,
) -> Result<Types, NoMemory>
    ensures { IfOk result (λ types. types ≡ given_types schema.now table columns.now) }
{
    match columns {
        None => types_in(alloc, schema, table),
        Some(names) => types_named(alloc, schema, table, names.as_slice()),
    }
}

// Whether INSERT names a column twice, or the number of values isn't that of the columns.
fn is_miscounted(
    alloc: Global,
    columns: &Option<Names>,
    given: &[ExprType],
    values: &[ExprType],
) -> Result<bool, NoMemory>
    ensures { IfOk result (λ bad. bad ≡ (repeats bytes_eq (unwrap_or columns.now []) || not (length given.now == length values.now))) }
{
    let again = repeats_named(alloc, columns)?;
    Ok(again || given.len() != values.len())
}

#[tactic(auto, unfolding(crate::specs::Rules::insert_rule))]
fn insert_rule(
    alloc: Global,
    schema: &Schema,
    table: &Name,
    columns: &Option<Names>,
    values: &[ExprType],
) -> Result<Option<u8>, NoMemory>
    ensures { IfOk result (λ rule. rule ≡ insert_rule schema.now table.now columns.now values.now) }
{
    let given = given_types(alloc, schema, schema.table(table.as_str()), columns)?;
    let miscounted = is_miscounted(alloc, columns, given.as_slice(), values)?;
    let counts = breaks(9, miscounted);
    let types = breaks(11, misfits(given.as_slice(), values));
    Ok(lesser(counts, types))
}

/// The smallest rule that INSERT breaks where its values are written.
#[tactic(auto, unfolding(crate::specs::Rules::given_rule))]
pub fn values_given(
    alloc: Global,
    schema: &Schema,
    table: &Name,
    columns: &Option<Names>,
    exprs: &[Expr],
) -> Result<Option<u8>, NoMemory>
    ensures { IfOk result (λ rule. rule ≡ given_rule schema.now table.now columns.now (InsertSource.Values exprs.now)) }
{
    let scope = Items::new(alloc);
    let values = typings(alloc, schema, &scope, exprs)?;
    let types = kinds(alloc, values.as_slice())?;
    let rule = insert_rule(alloc, schema, table, columns, types.as_slice())?;
    let aggregates = breaks(6, any_aggregated(values.as_slice()));
    Ok(lesser(lesser(values_rule(values.as_slice()), aggregates), rule))
}

/// The smallest rule that INSERT breaks where a query gives its values.
#[tactic(auto, unfolding(crate::specs::Rules::given_rule))]
pub fn answer_given(
    alloc: Global,
    schema: &Schema,
    table: &Name,
    columns: &Option<Names>,
    query: &Query,
) -> Result<Option<u8>, NoMemory>
    ensures { IfOk result (λ rule. rule ≡ given_rule schema.now table.now columns.now (InsertSource.Answer query.now)) }
{
    let scope = query_scope(alloc, schema, query)?;
    let t = query_typings(alloc, schema, &scope, query)?;
    let rule = query_rules(alloc, schema, &scope, query, &t)?;
    let types = shown_types(alloc, schema, &scope, &query.items, t.items.as_slice())?;
    let given = insert_rule(alloc, schema, table, columns, types.as_slice())?;
    Ok(lesser(rule, given))
}

fn set_names(alloc: Global, sets: &[SetItem]) -> Result<Names, NoMemory>
    ensures { IfOk result (λ names. names ≡ set_names sets.now) }
{
    let mut names = Items::new(alloc);
    for set in sets {
        names.push(set.name.copy(alloc)?)?;
    }
    Ok(names)
}

fn set_typings(
    alloc: Global,
    schema: &Schema,
    scope: &Scope,
    sets: &[SetItem],
) -> Result<Items<Typing>, NoMemory>
    ensures { IfOk result (λ all. all ≡ typings schema.now scope.now (set_values sets.now)) }
{
    let mut all = Items::new(alloc);
    for set in sets {
        all.push(typing_of(alloc, schema, scope, &set.value)?)?;
    }
    Ok(all)
}

fn either_aggregated(values: &[Typing], tests: &[Typing]) -> bool
    ensures { result ≡ (any_aggregated values.now || any_aggregated tests.now) }
{
    any_aggregated(values) || any_aggregated(tests)
}

/// The smallest rule that UPDATE breaks, if it breaks one.
#[tactic(auto, unfolding(crate::specs::Rules::update_rule))]
pub fn update_rule(
    alloc: Global,
    schema: &Schema,
    table: &Name,
    sets: &[SetItem],
    filter: &Option<Expr>,
) -> Result<Option<u8>, NoMemory>
    ensures { IfOk result (λ rule. rule ≡ update_rule schema.now table.now sets.now filter.now) }
{
    let scope = table_scope(alloc, schema, table)?;
    let values = set_typings(alloc, schema, &scope, sets)?;
    let tests = option_typings(alloc, schema, &scope, filter)?;
    let names = set_names(alloc, sets)?;
    let columns = types_named(
        alloc,
        schema,
        schema.table(table.as_str()),
        names.as_slice(),
    )?;
    let types = kinds(alloc, values.as_slice())?;
    let again = repeats(alloc, names.as_slice())?;
    Ok(smallest(&[
        values_rule(values.as_slice()),
        tests_rule(tests.as_slice()),
        breaks(6, either_aggregated(values.as_slice(), tests.as_slice())),
        breaks(10, again),
        breaks(11, misfits(columns.as_slice(), types.as_slice())),
    ]))
}

/// The smallest rule that DELETE breaks, if it breaks one.
#[tactic(auto, unfolding(crate::specs::Rules::delete_rule))]
pub fn delete_rule(
    alloc: Global,
    schema: &Schema,
    table: &Name,
    filter: &Option<Expr>,
) -> Result<Option<u8>, NoMemory>
    ensures { IfOk result (λ rule. rule ≡ delete_rule schema.now table.now filter.now) }
{
    let scope = table_scope(alloc, schema, table)?;
    let tests = option_typings(alloc, schema, &scope, filter)?;
    let tests = tests.as_slice();
    Ok(lesser(tests_rule(tests), breaks(6, any_aggregated(tests))))
}
