ghost use Rattle.std.specs.Prelude.{◌≡◌, [], option_to_list, unwrap_or, IfOk};
ghost use Rattle.std.specs.List.{flat_map, filter_map};
ghost use Rattle.wat_walk.specs.Chain.{IsOperand};
ghost use Rattle.wat_walk.specs.Queries.{listed, order_column};
ghost use Rattle.wat_names.specs.Refusals.{first};
ghost use Rattle.wat_scope.specs.Scope.{query_scope};
ghost use Rattle.wat_names.specs.Columns.{needed, needed_sources, needed_of_insert, table_refusals, named_again, source_refusals, refused_as, qualifier_refusals, column_refusals, in_expression, in_expressions, in_names, in_set, in_query, in_insert, columns_refusals, is_key_of, is_key_column, key_refusal, key_refusals, has_visible, new_table, new_index};

use std::alloc::Global;
use wat_ast::{
    Expr, InsertSource, Name, Names, OrderBy, OrderItem, Query, SelectItems, SetItem, Statement,
};
use wat_list::{Copied, Items, NoMemory};
use wat_schema::{NameSet, Refusal, Schema};
use wat_scope::{Found, Scope, Visible, column_in, find, query_scope, table_scope};
use wat_value::TableDef;
use wat_walk::Spine;

// The name, where a refusal names it.

fn no_table(alloc: Global, name: &Name) -> Result<Refusal, NoMemory>
    ensures { IfOk result (λ refusal. refusal ≡ Refusal.NoTable name.now) }
{
    let name = name.copy(alloc)?;
    Ok(Refusal::NoTable { name })
}

fn no_column(alloc: Global, name: &Name) -> Result<Refusal, NoMemory>
    ensures { IfOk result (λ refusal. refusal ≡ Refusal.NoColumn name.now) }
{
    let name = name.copy(alloc)?;
    Ok(Refusal::NoColumn { name })
}

fn ambiguous(alloc: Global, name: &Name) -> Result<Refusal, NoMemory>
    ensures { IfOk result (λ refusal. refusal ≡ Refusal.Ambiguous name.now) }
{
    let name = name.copy(alloc)?;
    Ok(Refusal::Ambiguous { name })
}

// Names of tables.

fn needed(alloc: Global, schema: &Schema, table: &Name) -> Result<Option<Refusal>, NoMemory>
    ensures { IfOk result (λ refusal. refusal ≡ first (needed schema.now table.now)) }
{
    if schema.table(table.as_str()).is_some() {
        return Ok(None);
    }
    Ok(Some(no_table(alloc, table)?))
}

fn needed_sources(
    alloc: Global,
    schema: &Schema,
    query: &Query,
) -> Result<Option<Refusal>, NoMemory>
    ensures { IfOk result (λ refusal. refusal ≡ first (needed_sources schema.now query.now)) }
{
    for source in query.sources.as_slice() {
        if let Some(refusal) = needed(alloc, schema, &source.table)? {
            return Ok(Some(refusal));
        }
    }
    Ok(None)
}

fn needed_of_insert(
    alloc: Global,
    schema: &Schema,
    source: &InsertSource,
) -> Result<Option<Refusal>, NoMemory>
    ensures { IfOk result (λ refusal. refusal ≡ first (needed_of_insert schema.now source.now)) }
{
    match source {
        InsertSource::Values(_) => Ok(None),
        InsertSource::Answer(query) => needed_sources(alloc, schema, query),
    }
}

fn new_index(alloc: Global, schema: &Schema, name: &Name) -> Result<Option<Refusal>, NoMemory>
    ensures { IfOk result (λ refusal. refusal ≡ first (new_index schema.now name.now)) }
{
    if schema.has_index(name.as_str()) {
        let name = name.copy(alloc)?;
        return Ok(Some(Refusal::IndexExists { name }));
    }
    Ok(None)
}

fn new_table(alloc: Global, schema: &Schema, name: &Name) -> Result<Option<Refusal>, NoMemory>
    ensures { IfOk result (λ refusal. refusal ≡ first (new_table schema.now name.now)) }
{
    if schema.table(name.as_str()).is_some() {
        let name = name.copy(alloc)?;
        return Ok(Some(Refusal::TableExists { name }));
    }
    Ok(None)
}

/// The first refusal of a table's or an index's name.
#[tactic(auto, using(crate::proofs::Firsts::firsts))]
pub fn table_refusal(
    alloc: Global,
    schema: &Schema,
    statement: &Statement,
) -> Result<Option<Refusal>, NoMemory>
    ensures { IfOk result (λ refusal. refusal ≡ first (table_refusals schema.now statement.now)) }
{
    match statement {
        Statement::CreateTable { name, .. } => new_table(alloc, schema, name),
        Statement::CreateIndex { name, table, .. } => {
            if let Some(refusal) = needed(alloc, schema, table)? {
                return Ok(Some(refusal));
            }
            new_index(alloc, schema, name)
        }
        Statement::DropTable { name } => needed(alloc, schema, name),
        Statement::Insert { table, source, .. } => {
            if let Some(refusal) = needed(alloc, schema, table)? {
                return Ok(Some(refusal));
            }
            needed_of_insert(alloc, schema, source)
        }
        Statement::Update { table, .. } => needed(alloc, schema, table),
        Statement::Delete { table, .. } => needed(alloc, schema, table),
        Statement::Select(query) => needed_sources(alloc, schema, query),
        _ => Ok(None),
    }
}

// Two sources with one visible name.

fn has_visible(scope: &[Visible], name: &Name) -> bool
    ensures { result ≡ has_visible scope.now name.now }
{
    scope
        .iter()
        .any(|source| source.name.as_str() == name.as_str())
}

fn named_again(alloc: Global, scope: &Scope) -> Result<Option<Refusal>, NoMemory>
    ensures { IfOk result (λ refusal. refusal ≡ first (named_again [] scope.now)) }
{
    let mut before = NameSet::new(alloc);
    for source in scope.as_slice() {
        let fresh = before.add(source.name.as_str())?;
        if !fresh {
            return Ok(Some(ambiguous(alloc, &source.name)?));
        }
    }
    Ok(None)
}

fn query_named_again(
    alloc: Global,
    schema: &Schema,
    query: &Query,
) -> Result<Option<Refusal>, NoMemory>
    ensures { IfOk result (λ refusal. refusal ≡ first (named_again [] (query_scope schema.now query.now))) }
{
    let scope = query_scope(alloc, schema, query)?;
    named_again(alloc, &scope)
}

/// The first source that has the visible name of an earlier one.
pub fn source_refusal(
    alloc: Global,
    schema: &Schema,
    statement: &Statement,
) -> Result<Option<Refusal>, NoMemory>
    ensures { IfOk result (λ refusal. refusal ≡ first (source_refusals schema.now statement.now)) }
{
    match statement {
        Statement::Insert {
            source: InsertSource::Answer(query),
            ..
        } => query_named_again(alloc, schema, query),
        Statement::Select(query) => query_named_again(alloc, schema, query),
        _ => Ok(None),
    }
}

// Columns.

fn refused_as(alloc: Global, name: &Name, found: Found) -> Result<Option<Refusal>, NoMemory>
    ensures { IfOk result (λ refusal. refusal ≡ first (refused_as name.now found)) }
{
    match found {
        Found::Nowhere => Ok(Some(no_column(alloc, name)?)),
        Found::At { .. } => Ok(None),
        Found::Several => Ok(Some(ambiguous(alloc, name)?)),
    }
}

fn qualifier_refusal(
    alloc: Global,
    scope: &Scope,
    qualifier: &Option<Name>,
) -> Result<Option<Refusal>, NoMemory>
    ensures { IfOk result (λ refusal. refusal ≡ first (qualifier_refusals scope.now qualifier.now)) }
{
    match qualifier {
        None => Ok(None),
        Some(qualifier) => {
            if has_visible(scope.as_slice(), qualifier) {
                return Ok(None);
            }
            Ok(Some(no_column(alloc, qualifier)?))
        }
    }
}

#[tactic(auto, using(crate::proofs::Firsts::firsts), unfolding(crate::specs::Columns::column_refusals))]
fn column_refusal(
    alloc: Global,
    schema: &Schema,
    scope: &Scope,
    qualifier: &Option<Name>,
    name: &Name,
) -> Result<Option<Refusal>, NoMemory>
    ensures { IfOk result (λ refusal. refusal ≡ first (column_refusals schema.now scope.now (qualifier.now, name.now))) }
{
    if let Some(refusal) = qualifier_refusal(alloc, scope, qualifier)? {
        return Ok(Some(refusal));
    }
    let found = find(schema, scope, qualifier, name);
    refused_as(alloc, name, found)
}

// The first column of one of the expressions that is refused.
#[cycle(refused)]
fn in_expressions(
    alloc: Global,
    schema: &Schema,
    scope: &Scope,
    exprs: &[Expr],
) -> Result<Option<Refusal>, NoMemory>
    ensures { IfOk result (λ refusal. refusal ≡ first (in_expressions schema.now scope.now exprs.now)) }
{
    for expr in exprs {
        if let Some(refusal) = in_expression(alloc, schema, scope, expr)? {
            return Ok(Some(refusal));
        }
    }
    Ok(None)
}

// The first column of an operand that is refused.
#[cycle(refused)]
#[tactic(auto, using(crate::proofs::ColumnLemmas::refused))]
fn in_operand(
    alloc: Global,
    schema: &Schema,
    scope: &Scope,
    expr: &Expr,
) -> Result<Option<Refusal>, NoMemory>
    requires { IsOperand expr.now }
    ensures { IfOk result (λ refusal. refusal ≡ first (in_expression schema.now scope.now expr.now)) }
{
    match expr {
        Expr::Literal(_) => Ok(None),
        Expr::Named { table, name } => column_refusal(alloc, schema, scope, table, name),
        Expr::Placed { .. } => Ok(None),
        Expr::Unary { arg, .. } => in_expression(alloc, schema, scope, arg.get()),
        Expr::Binary { .. } => unreachable!(),
        Expr::IsNull { arg, .. } => in_expression(alloc, schema, scope, arg.get()),
        Expr::Between { arg, low, high, .. } => {
            if let Some(refusal) = in_expression(alloc, schema, scope, arg.get())? {
                return Ok(Some(refusal));
            }
            if let Some(refusal) = in_expression(alloc, schema, scope, low.get())? {
                return Ok(Some(refusal));
            }
            in_expression(alloc, schema, scope, high.get())
        }
        Expr::InList { arg, items, .. } => {
            if let Some(refusal) = in_expression(alloc, schema, scope, arg.get())? {
                return Ok(Some(refusal));
            }
            in_expressions(alloc, schema, scope, items.as_slice())
        }
        Expr::Aggregate { arg, .. } => match arg {
            None => Ok(None),
            Some(arg) => in_expression(alloc, schema, scope, arg.get()),
        },
    }
}

// The first column of an expression that is refused: operand by operand, so that a long chain takes little of the stack.
#[cycle(refused)]
fn in_expression(
    alloc: Global,
    schema: &Schema,
    scope: &Scope,
    expr: &Expr,
) -> Result<Option<Refusal>, NoMemory>
    ensures { IfOk result (λ refusal. refusal ≡ first (in_expression schema.now scope.now expr.now)) }
{
    let spine = Spine::of(alloc, expr)?;
    if let Some(refusal) = in_operand(alloc, schema, scope, spine.first)? {
        return Ok(Some(refusal));
    }
    for operation in &spine.operations {
        if let Some(refusal) = in_expression(alloc, schema, scope, operation.right)? {
            return Ok(Some(refusal));
        }
    }
    Ok(None)
}

#[tactic(auto, unfolding(crate::specs::Columns::in_names))]
fn in_names(
    alloc: Global,
    schema: &Schema,
    scope: &Scope,
    names: &[Name],
) -> Result<Option<Refusal>, NoMemory>
    ensures { IfOk result (λ refusal. refusal ≡ first (in_names schema.now scope.now names.now)) }
{
    for name in names {
        if let Some(refusal) = column_refusal(alloc, schema, scope, &None, name)? {
            return Ok(Some(refusal));
        }
    }
    Ok(None)
}

fn in_option(
    alloc: Global,
    schema: &Schema,
    scope: &Scope,
    expr: &Option<Expr>,
) -> Result<Option<Refusal>, NoMemory>
    ensures { IfOk result (λ refusal. refusal ≡ first (in_expressions schema.now scope.now (option_to_list expr.now))) }
{
    match expr {
        None => Ok(None),
        Some(expr) => in_expression(alloc, schema, scope, expr),
    }
}

fn in_order(
    alloc: Global,
    schema: &Schema,
    scope: &Scope,
    item: &OrderItem,
) -> Result<Option<Refusal>, NoMemory>
    ensures { IfOk result (λ refusal. refusal ≡ first (in_expressions schema.now scope.now (option_to_list (order_column item.now)))) }
{
    match &item.by {
        OrderBy::Column(column) => in_expression(alloc, schema, scope, column),
        OrderBy::Position(_) => Ok(None),
    }
}

fn in_orders(
    alloc: Global,
    schema: &Schema,
    scope: &Scope,
    order: &[OrderItem],
) -> Result<Option<Refusal>, NoMemory>
    ensures { IfOk result (λ refusal. refusal ≡ first (in_expressions schema.now scope.now (filter_map order_column order.now))) }
{
    for item in order {
        if let Some(refusal) = in_order(alloc, schema, scope, item)? {
            return Ok(Some(refusal));
        }
    }
    Ok(None)
}

#[tactic(auto, using(crate::proofs::Firsts::firsts), unfolding(crate::specs::Columns::in_set))]
fn in_set(
    alloc: Global,
    schema: &Schema,
    scope: &Scope,
    set: &SetItem,
) -> Result<Option<Refusal>, NoMemory>
    ensures { IfOk result (λ refusal. refusal ≡ first (in_set schema.now scope.now set.now)) }
{
    if let Some(refusal) = column_refusal(alloc, schema, scope, &None, &set.name)? {
        return Ok(Some(refusal));
    }
    in_expression(alloc, schema, scope, &set.value)
}

fn in_sets(
    alloc: Global,
    schema: &Schema,
    scope: &Scope,
    sets: &[SetItem],
) -> Result<Option<Refusal>, NoMemory>
    ensures { IfOk result (λ refusal. refusal ≡ first (flat_map (in_set schema.now scope.now) sets.now)) }
{
    for set in sets {
        if let Some(refusal) = in_set(alloc, schema, scope, set)? {
            return Ok(Some(refusal));
        }
    }
    Ok(None)
}

// An option of names has none where it is absent.
#[tactic(auto, unfolding(crate::specs::Columns::in_names))]
fn in_columns(
    alloc: Global,
    schema: &Schema,
    scope: &Scope,
    columns: &Option<Names>,
) -> Result<Option<Refusal>, NoMemory>
    ensures { IfOk result (λ refusal. refusal ≡ first (in_names schema.now scope.now (unwrap_or columns.now []))) }
{
    match columns {
        None => Ok(None),
        Some(names) => in_names(alloc, schema, scope, names.as_slice()),
    }
}

fn in_items(
    alloc: Global,
    schema: &Schema,
    scope: &Scope,
    items: &SelectItems,
) -> Result<Option<Refusal>, NoMemory>
    ensures { IfOk result (λ refusal. refusal ≡ first (in_expressions schema.now scope.now (listed items.now))) }
{
    match items {
        SelectItems::Star => Ok(None),
        SelectItems::List(exprs) => in_expressions(alloc, schema, scope, exprs.as_slice()),
    }
}

#[tactic(auto, using(crate::proofs::ColumnLemmas::first_in_query))]
fn in_query(alloc: Global, schema: &Schema, query: &Query) -> Result<Option<Refusal>, NoMemory>
    ensures { IfOk result (λ refusal. refusal ≡ first (in_query schema.now query.now)) }
{
    let scope = query_scope(alloc, schema, query)?;
    if let Some(refusal) = in_items(alloc, schema, &scope, &query.items)? {
        return Ok(Some(refusal));
    }
    if let Some(refusal) = in_option(alloc, schema, &scope, &query.filter)? {
        return Ok(Some(refusal));
    }
    if let Some(refusal) = in_expressions(alloc, schema, &scope, query.group.as_slice())? {
        return Ok(Some(refusal));
    }
    if let Some(refusal) = in_option(alloc, schema, &scope, &query.having)? {
        return Ok(Some(refusal));
    }
    in_orders(alloc, schema, &scope, query.order.as_slice())
}

fn in_insert(
    alloc: Global,
    schema: &Schema,
    source: &InsertSource,
) -> Result<Option<Refusal>, NoMemory>
    ensures { IfOk result (λ refusal. refusal ≡ first (in_insert schema.now source.now)) }
{
    match source {
        InsertSource::Values(values) => {
            let scope = Items::new(alloc);
            in_expressions(alloc, schema, &scope, values.as_slice())
        }
        InsertSource::Answer(query) => in_query(alloc, schema, query),
    }
}

/// The first column that is refused, in text order.
#[tactic(auto, using(crate::proofs::Firsts::firsts))]
pub fn columns_refusal(
    alloc: Global,
    schema: &Schema,
    statement: &Statement,
) -> Result<Option<Refusal>, NoMemory>
    ensures { IfOk result (λ refusal. refusal ≡ first (columns_refusals schema.now statement.now)) }
{
    match statement {
        Statement::CreateIndex { table, columns, .. } => {
            let scope = table_scope(alloc, schema, table)?;
            in_names(alloc, schema, &scope, columns.as_slice())
        }
        Statement::Insert {
            table,
            columns,
            source,
        } => {
            let scope = table_scope(alloc, schema, table)?;
            if let Some(refusal) = in_columns(alloc, schema, &scope, columns)? {
                return Ok(Some(refusal));
            }
            in_insert(alloc, schema, source)
        }
        Statement::Update {
            table,
            sets,
            filter,
        } => {
            let scope = table_scope(alloc, schema, table)?;
            if let Some(refusal) = in_sets(alloc, schema, &scope, sets.as_slice())? {
                return Ok(Some(refusal));
            }
            in_option(alloc, schema, &scope, filter)
        }
        Statement::Delete { table, filter } => {
            let scope = table_scope(alloc, schema, table)?;
            in_option(alloc, schema, &scope, filter)
        }
        Statement::Select(query) => in_query(alloc, schema, query),
        _ => Ok(None),
    }
}

// SET of a primary key column.

fn is_key_of(number: u8, def: &TableDef) -> bool
    ensures { result ≡ is_key_of number def.now }
{
    def.key.as_slice().iter().any(|key| *key == number)
}

fn is_key_column(schema: &Schema, table: Option<u32>, name: &Name) -> bool
    ensures { result ≡ is_key_column schema.now table name.now }
{
    let Some(number) = column_in(schema, table, name) else {
        return false;
    };
    let Some(table) = table else {
        return false;
    };
    match schema.def(table) {
        Some(def) => is_key_of(number, def),
        None => false,
    }
}

#[tactic(auto, unfolding(crate::specs::Columns::key_refusal))]
fn key_refusal(
    alloc: Global,
    schema: &Schema,
    table: Option<u32>,
    set: &SetItem,
) -> Result<Option<Refusal>, NoMemory>
    ensures { IfOk result (λ refusal. refusal ≡ first (key_refusal schema.now table set.now)) }
{
    if is_key_column(schema, table, &set.name) {
        let name = set.name.copy(alloc)?;
        return Ok(Some(Refusal::KeyAssigned { name }));
    }
    Ok(None)
}

fn keys_refusal(
    alloc: Global,
    schema: &Schema,
    table: Option<u32>,
    sets: &[SetItem],
) -> Result<Option<Refusal>, NoMemory>
    ensures { IfOk result (λ refusal. refusal ≡ first (flat_map (key_refusal schema.now table) sets.now)) }
{
    for set in sets {
        if let Some(refusal) = key_refusal(alloc, schema, table, set)? {
            return Ok(Some(refusal));
        }
    }
    Ok(None)
}

/// The first primary key column that is set.
pub fn assigned_key(
    alloc: Global,
    schema: &Schema,
    statement: &Statement,
) -> Result<Option<Refusal>, NoMemory>
    ensures { IfOk result (λ refusal. refusal ≡ first (key_refusals schema.now statement.now)) }
{
    match statement {
        Statement::Update { table, sets, .. } => {
            let table = schema.table(table.as_str());
            keys_refusal(alloc, schema, table, sets.as_slice())
        }
        _ => Ok(None),
    }
}
