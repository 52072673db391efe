ghost use Rattle.std.specs.Prelude.{◌≡◌, [], ◌∷◌, ◌++◌, IfOk, OnOk};
ghost use Rattle.std.specs.List.{filter_map};
ghost use Rattle.wat_ast.specs.declared.expression.Expr.TheVariants.{Binary};
ghost use Rattle.wat_written.specs.Joining.{with_test};
ghost use Rattle.wat_written.specs.Written.{all_of, equals, literals, set_of, set_unless_key, sets_of, statement_of_change, test_of, update, where_key};

use crate::columns::{is_key, name_at, value_in};
use std::alloc::Global;
use wat_ast::{BinaryOp, Expr, Exprs, InsertSource, Name, SetItem, SetItems, Statement};
use wat_list::{Boxed, Copied, Items, NoMemory};
use wat_value::{Change, Row, TableDef, Value};

// The values as they are written.
fn literals(alloc: Global, row: &[Value]) -> Result<Exprs, NoMemory>
    ensures { IfOk result (λ exprs. exprs ≡ literals row.now) }
{
    let mut exprs = Items::new(alloc);
    for value in row {
        let value = value.copy(alloc)?;
        exprs.push(Expr::Literal(value))?;
    }
    Ok(exprs)
}

fn binary(alloc: Global, op: BinaryOp, left: Expr, right: Expr) -> Result<Expr, NoMemory>
    ensures { IfOk result (λ expr. expr ≡ Binary op left right) }
{
    let left = Boxed::new(alloc, left)?;
    let right = Boxed::new(alloc, right)?;
    Ok(Expr::Binary { op, left, right })
}

// The column has the value.
fn equals(alloc: Global, name: Name, value: Value) -> Result<Expr, NoMemory>
    ensures { IfOk result (λ expr. expr ≡ equals name value) }
{
    let left = Expr::Named { table: None, name };
    binary(alloc, BinaryOp::Equal, left, Expr::Literal(value))
}

// The column has the value that the row has.
fn test_of(
    alloc: Global,
    def: &TableDef,
    row: &Row,
    number: usize,
) -> Result<Option<Expr>, NoMemory>
    ensures { IfOk result (λ test. test ≡ test_of def.now row.now number) }
{
    match name_at(alloc, def, number)? {
        Some(name) => {
            let value = value_in(alloc, row, number)?;
            let test = equals(alloc, name, value)?;
            Ok(Some(test))
        }
        None => Ok(None),
    }
}

// The tests so far, and this one.
fn with_test(
    alloc: Global,
    tests: Option<Expr>,
    test: Option<Expr>,
) -> Result<Option<Expr>, NoMemory>
    ensures { IfOk result (λ all. all ≡ with_test tests test) }
{
    match (tests, test) {
        (tests, None) => Ok(tests),
        (None, test) => Ok(test),
        (Some(left), Some(right)) => {
            let all = binary(alloc, BinaryOp::And, left, right)?;
            Ok(Some(all))
        }
    }
}

// The columns have the values that the row has.
fn tests_of(
    alloc: Global,
    def: &TableDef,
    row: &Row,
    numbers: &[u8],
) -> Result<Option<Expr>, NoMemory>
    ensures { IfOk result (λ test. test ≡ all_of (filter_map (test_of def.now row.now) numbers.now)) }
{
    let mut tests = None;
    for number in numbers {
        let test = test_of(alloc, def, row, *number as usize)?;
        tests = with_test(alloc, tests, test)?;
    }
    Ok(tests)
}

// The row with the key of this one.
fn where_key(alloc: Global, def: &TableDef, row: &Row) -> Result<Option<Expr>, NoMemory>
    ensures { IfOk result (λ test. test ≡ where_key def.now row.now) }
{
    tests_of(alloc, def, row, def.key.as_slice())
}

// The column is set to the value that the row has.
fn set_of(
    alloc: Global,
    def: &TableDef,
    row: &Row,
    number: usize,
) -> Result<Option<SetItem>, NoMemory>
    ensures { IfOk result (λ set. set ≡ set_of def.now row.now number) }
{
    match name_at(alloc, def, number)? {
        Some(name) => {
            let value = value_in(alloc, row, number)?;
            Ok(Some(SetItem {
                name,
                value: Expr::Literal(value),
            }))
        }
        None => Ok(None),
    }
}

fn set_unless_key(
    alloc: Global,
    def: &TableDef,
    row: &Row,
    number: usize,
) -> Result<Option<SetItem>, NoMemory>
    ensures { IfOk result (λ set. set ≡ set_unless_key def.now row.now number) }
{
    if is_key(def, number) {
        return Ok(None);
    }
    set_of(alloc, def, row, number)
}

fn add_set(
    alloc: Global,
    def: &TableDef,
    row: &Row,
    number: usize,
    sets: &mut SetItems,
) -> Result<(), NoMemory>
    ensures { OnOk result (sets.new ≡ sets.old ++ filter_map (set_unless_key def.now row.now) (number ∷ [])) }
{
    match set_unless_key(alloc, def, row, number)? {
        Some(set) => sets.push(set),
        None => Ok(()),
    }
}

// Each column outside the primary key with the value that the row has.
fn sets_of(alloc: Global, def: &TableDef, row: &Row) -> Result<SetItems, NoMemory>
    ensures { IfOk result (λ sets. sets ≡ sets_of def.now row.now) }
{
    let mut sets = Items::new(alloc);
    for number in 0..def.columns.len() {
        add_set(alloc, def, row, number, &mut sets)?;
    }
    Ok(sets)
}

fn update(
    alloc: Global,
    def: &TableDef,
    before: &Row,
    after: &Row,
) -> Result<Option<Statement>, NoMemory>
    ensures { IfOk result (λ statement. statement ≡ update def.now.name (sets_of def.now after.now) (where_key def.now before.now)) }
{
    let sets = sets_of(alloc, def, after)?;
    if sets.is_empty() {
        return Ok(None);
    }
    let table = def.name.copy(alloc)?;
    let filter = where_key(alloc, def, before)?;
    Ok(Some(Statement::Update {
        table,
        sets,
        filter,
    }))
}

/// The statement that writes a change of a table with this definition.
pub(crate) fn statement_of(
    alloc: Global,
    def: &TableDef,
    change: &Change,
) -> Result<Option<Statement>, NoMemory>
    ensures { IfOk result (λ statement. statement ≡ statement_of_change def.now change.now) }
{
    match change {
        Change::Insert { table: _, row } => {
            let table = def.name.copy(alloc)?;
            let values = literals(alloc, row.as_slice())?;
            Ok(Some(Statement::Insert {
                table,
                columns: None,
                source: InsertSource::Values(values),
            }))
        }
        Change::Update {
            table: _,
            before,
            after,
        } => update(alloc, def, before, after),
        Change::Delete { table: _, before } => {
            let table = def.name.copy(alloc)?;
            let filter = where_key(alloc, def, before)?;
            Ok(Some(Statement::Delete { table, filter }))
        }
    }
}
