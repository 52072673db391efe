ghost use Rattle.std.specs.Prelude.{◌≡◌, true, IfOk};
ghost use Rattle.wat_schema.specs.Tables.{catalog_of};
ghost use Rattle.wat_rules.specs.Changes.{IsAllowed, changes_schema};
ghost use Rattle.wat_meaning.specs.Meaning.{has_meaning, meaning, meaning_checked};

use crate::changing::{alter, delete, insert, refused, select, update};
use crate::plain::plain_meaning;
use std::alloc::{AllocError, Global};
use wat_ast::Statement;
use wat_list::{Items, NoMemory};
use wat_meaning::{Meaning, Reply};
use wat_rules::{CheckRefusal, check};
use wat_tables::Tables;

// The meaning of a statement that is checked.
#[tactic(auto, unfolding(wat_meaning::specs::Meaning::meaning_checked, wat_meaning::specs::Meaning::made, wat_meaning::specs::Meaning::done))]
fn meaning_checked(
    alloc: Global,
    statement: &Statement,
    tables: &Tables,
) -> Result<Meaning, NoMemory>
    requires { changes_schema statement.now ≡ true → IsAllowed (catalog_of tables.now) statement.now }
    ensures { IfOk result (λ m. m ≡ meaning_checked tables.now statement.now) }
{
    match statement {
        Statement::CreateTable { .. } => alter(alloc, tables, statement, Reply::Created),
        Statement::CreateIndex { .. } => alter(alloc, tables, statement, Reply::Created),
        Statement::DropTable { .. } => alter(alloc, tables, statement, Reply::Dropped),
        Statement::Insert {
            table,
            columns,
            source,
        } => insert(alloc, tables, table, columns, source),
        Statement::Update {
            table,
            sets,
            filter,
        } => update(alloc, tables, table, sets.as_slice(), filter),
        Statement::Delete { table, filter } => delete(alloc, tables, table, filter),
        Statement::Select(query) => select(alloc, tables, query),
        _ => Ok(Meaning {
            answer: Reply::Rows(Items::new(alloc)),
            acts: Items::new(alloc),
        }),
    }
}

#[tactic(auto, unfolding(wat_meaning::specs::Meaning::meaning))]
fn any_meaning(alloc: Global, statement: &Statement, tables: &Tables) -> Result<Meaning, NoMemory>
    ensures { IfOk result (λ m. m ≡ meaning tables.now statement.now) }
{
    match check(alloc, statement, tables.schema()) {
        Ok(placed) => meaning_checked(alloc, &placed, tables),
        Err(CheckRefusal::Refused(refusal)) => Ok(refused(alloc, refusal)),
        Err(CheckRefusal::Memory) => Err(AllocError),
    }
}

/// What a statement means over the tables: its reply, and the acts that it makes, which all apply.
/// A statement of transactions, of checkpoints or of options has no meaning here, and nothing is said
/// of it.
///
/// It keeps no more combinations of rows than pass WHERE; of one source no other rows are copied. An INSERT
/// of literals that fit is not checked, since the checks have nothing to say of it.
pub fn meaning(alloc: Global, statement: &Statement, tables: &Tables) -> Result<Meaning, NoMemory>
    ensures { has_meaning statement.now ≡ true → IfOk result (λ m. m ≡ meaning tables.now statement.now) }
{
    match plain_meaning(alloc, statement, tables)? {
        Some(meant) => Ok(meant),
        None => any_meaning(alloc, statement, tables),
    }
}
