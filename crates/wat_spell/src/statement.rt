ghost use Rattle.std.specs.Prelude.{◌≡◌, OnOk};
ghost use Rattle.wat_spell.specs.Growing.{puts};
ghost use Rattle.wat_spell.specs.Statements as spec;

use crate::list::{Part, by, in_parentheses, list};
use crate::symbol::Symbol;
use crate::writing::Writing;
use wat_ast::{
    Element, Elements, Expr, InsertSource, Name, Names, OrderBy, OrderItem, Query, SelectItems,
    SetItem, SetItems, Source, Statement, TypeName,
};
use wat_list::NoMemory;
use wat_word::Keyword;

impl Part for Name {
    ghost use Rattle.wat_spell.specs.Statements.{name_tokens};

    ghost tokens = { name_tokens };

    fn write(&self, writing: &mut Writing) -> Result<(), NoMemory> {
        writing.name(self)
    }
}

#[tactic(auto, using(crate::proofs::Writes::puts_append))]
impl Part for Source {
    ghost use Rattle.wat_spell.specs.Statements.{source_tokens};

    ghost tokens = { source_tokens };

    fn write(&self, writing: &mut Writing) -> Result<(), NoMemory> {
        writing.name(&self.table)?;
        match &self.alias {
            None => Ok(()),
            Some(alias) => writing.name(alias),
        }
    }
}

#[tactic(auto, using(crate::proofs::Writes::puts_append))]
impl Part for OrderItem {
    ghost use Rattle.wat_spell.specs.Statements.{order_item};

    ghost tokens = { order_item };

    fn write(&self, writing: &mut Writing) -> Result<(), NoMemory> {
        order_by(writing, &self.by)?;
        writing.word_if(self.descending, Keyword::Desc)
    }
}

#[tactic(auto, using(crate::proofs::Writes::puts_append))]
impl Part for SetItem {
    ghost use Rattle.wat_spell.specs.Statements.{set_item};

    ghost tokens = { set_item };

    fn write(&self, writing: &mut Writing) -> Result<(), NoMemory> {
        writing.name(&self.name)?;
        writing.symbol(Symbol::Equal)?;
        self.value.write(writing)
    }
}

#[tactic(auto, using(crate::proofs::Writes::puts_append))]
impl Part for Element {
    ghost use Rattle.wat_spell.specs.Statements.{element_tokens};

    ghost tokens = { element_tokens };

    fn write(&self, writing: &mut Writing) -> Result<(), NoMemory> {
        match self {
            Element::Column {
                name,
                kind,
                nullable,
                key,
            } => {
                writing.name(name)?;
                type_name(writing, *kind)?;
                column_rules(writing, *nullable, *key)
            }
            Element::Key(columns) => {
                writing.word(Keyword::Primary)?;
                writing.word(Keyword::Key)?;
                in_parentheses(writing, columns.as_slice())
            }
        }
    }
}

fn order_by(writing: &mut Writing, by: &OrderBy) -> Result<(), NoMemory>
    ensures { OnOk result (writing.new ≡ puts writing.old (spec.order_by by.now)) }
{
    match by {
        OrderBy::Column(column) => column.write(writing),
        OrderBy::Position(position) => writing.integer(*position),
    }
}

/// Writes a type with its length right behind its word.
#[tactic(auto, using(crate::proofs::Writes::puts_append))]
fn sized(writing: &mut Writing, word: Keyword, size: i64) -> Result<(), NoMemory>
    ensures { OnOk result (writing.new ≡ puts writing.old (spec.sized word size)) }
{
    writing.word(word)?;
    writing.symbol(Symbol::OpenTight)?;
    writing.integer(size)?;
    writing.symbol(Symbol::Close)
}

fn type_name(writing: &mut Writing, kind: TypeName) -> Result<(), NoMemory>
    ensures { OnOk result (writing.new ≡ puts writing.old (spec.type_tokens kind)) }
{
    match kind {
        TypeName::Integer => writing.word(Keyword::Integer),
        TypeName::Char(size) => sized(writing, Keyword::Char, size),
        TypeName::Varchar(size) => sized(writing, Keyword::Varchar, size),
    }
}

#[tactic(auto, using(crate::proofs::Writes::puts_append))]
fn column_rules(writing: &mut Writing, nullable: bool, key: bool) -> Result<(), NoMemory>
    ensures { OnOk result (writing.new ≡ puts writing.old (spec.column_rules nullable key)) }
{
    writing.word_if(!nullable, Keyword::Not)?;
    writing.word_if(!nullable, Keyword::Null)?;
    writing.word_if(key, Keyword::Primary)?;
    writing.word_if(key, Keyword::Key)
}

fn select_items(writing: &mut Writing, items: &SelectItems) -> Result<(), NoMemory>
    ensures { OnOk result (writing.new ≡ puts writing.old (spec.select_items items.now)) }
{
    match items {
        SelectItems::Star => writing.symbol(Symbol::Star),
        SelectItems::List(exprs) => list(writing, exprs.as_slice()),
    }
}

/// Writes WHERE or HAVING, if there is a condition.
fn condition(writing: &mut Writing, word: Keyword, condition: &Option<Expr>) -> Result<(), NoMemory>
    ensures { OnOk result (writing.new ≡ puts writing.old (spec.condition word condition.now)) }
{
    match condition {
        None => Ok(()),
        Some(expr) => {
            writing.word(word)?;
            expr.write(writing)
        }
    }
}

#[tactic(auto, using(crate::proofs::Writes::puts_append))]
fn query(writing: &mut Writing, query: &Query) -> Result<(), NoMemory>
    ensures { OnOk result (writing.new ≡ puts writing.old (spec.query query.now)) }
{
    writing.word(Keyword::Select)?;
    writing.word_if(query.distinct, Keyword::Distinct)?;
    select_items(writing, &query.items)?;
    writing.word(Keyword::From)?;
    list(writing, query.sources.as_slice())?;
    condition(writing, Keyword::Where, &query.filter)?;
    by(writing, Keyword::Group, query.group.as_slice())?;
    condition(writing, Keyword::Having, &query.having)?;
    by(writing, Keyword::Order, query.order.as_slice())
}

fn create_table(writing: &mut Writing, name: &Name, elements: &Elements) -> Result<(), NoMemory>
    ensures { OnOk result (writing.new ≡ puts writing.old (spec.create_table name.now elements.now)) }
{
    writing.word(Keyword::Create)?;
    writing.word(Keyword::Table)?;
    writing.name(name)?;
    in_parentheses(writing, elements.as_slice())
}

fn create_index(
    writing: &mut Writing,
    name: &Name,
    table: &Name,
    columns: &Names,
) -> Result<(), NoMemory>
    ensures { OnOk result (writing.new ≡ puts writing.old (spec.create_index name.now table.now columns.now)) }
{
    writing.word(Keyword::Create)?;
    writing.word(Keyword::Index)?;
    writing.name(name)?;
    writing.word(Keyword::On)?;
    writing.name(table)?;
    in_parentheses(writing, columns.as_slice())
}

fn insert_columns(writing: &mut Writing, columns: &Option<Names>) -> Result<(), NoMemory>
    ensures { OnOk result (writing.new ≡ puts writing.old (spec.insert_columns columns.now)) }
{
    match columns {
        None => Ok(()),
        Some(names) => in_parentheses(writing, names.as_slice()),
    }
}

fn insert_source(writing: &mut Writing, source: &InsertSource) -> Result<(), NoMemory>
    ensures { OnOk result (writing.new ≡ puts writing.old (spec.insert_source source.now)) }
{
    match source {
        InsertSource::Values(values) => {
            writing.word(Keyword::Values)?;
            in_parentheses(writing, values.as_slice())
        }
        InsertSource::Answer(answer) => query(writing, answer),
    }
}

#[tactic(auto, using(crate::proofs::Writes::puts_append))]
fn insert(
    writing: &mut Writing,
    table: &Name,
    columns: &Option<Names>,
    source: &InsertSource,
) -> Result<(), NoMemory>
    ensures { OnOk result (writing.new ≡ puts writing.old (spec.insert table.now columns.now source.now)) }
{
    writing.word(Keyword::Insert)?;
    writing.word(Keyword::Into)?;
    writing.name(table)?;
    insert_columns(writing, columns)?;
    insert_source(writing, source)
}

#[tactic(auto, using(crate::proofs::Writes::puts_append))]
fn update(
    writing: &mut Writing,
    table: &Name,
    sets: &SetItems,
    filter: &Option<Expr>,
) -> Result<(), NoMemory>
    ensures { OnOk result (writing.new ≡ puts writing.old (spec.update table.now sets.now filter.now)) }
{
    writing.word(Keyword::Update)?;
    writing.name(table)?;
    writing.word(Keyword::Set)?;
    list(writing, sets.as_slice())?;
    condition(writing, Keyword::Where, filter)
}

fn delete(writing: &mut Writing, table: &Name, filter: &Option<Expr>) -> Result<(), NoMemory>
    ensures { OnOk result (writing.new ≡ puts writing.old (spec.delete table.now filter.now)) }
{
    writing.word(Keyword::Delete)?;
    writing.word(Keyword::From)?;
    writing.name(table)?;
    condition(writing, Keyword::Where, filter)
}

/// Writes SET TEMPORARY OPTION, an option and an equals sign.
fn setting(writing: &mut Writing, option: Keyword) -> Result<(), NoMemory>
    ensures { OnOk result (writing.new ≡ puts writing.old (spec.setting option)) }
{
    writing.word(Keyword::Set)?;
    writing.word(Keyword::Temporary)?;
    writing.word(Keyword::Option)?;
    writing.word(option)?;
    writing.symbol(Symbol::Equal)
}

#[tactic(auto, using(crate::proofs::Writes::puts_append))]
fn set_level(writing: &mut Writing, level: u8) -> Result<(), NoMemory>
    ensures { OnOk result (writing.new ≡ puts writing.old (spec.set_level level)) }
{
    setting(writing, Keyword::IsolationLevel)?;
    writing.number(u64::from(level))
}

#[tactic(auto, using(crate::proofs::Writes::puts_append))]
fn set_blocking(writing: &mut Writing, on: bool) -> Result<(), NoMemory>
    ensures { OnOk result (writing.new ≡ puts writing.old (spec.set_blocking on)) }
{
    setting(writing, Keyword::Blocking)?;
    writing.word(if on { Keyword::On } else { Keyword::Off })
}

fn drop_table(writing: &mut Writing, name: &Name) -> Result<(), NoMemory>
    ensures { OnOk result (writing.new ≡ puts writing.old (spec.drop_table name.now)) }
{
    writing.word(Keyword::Drop)?;
    writing.word(Keyword::Table)?;
    writing.name(name)
}

fn rollback_to(writing: &mut Writing, name: &Name) -> Result<(), NoMemory>
    ensures { OnOk result (writing.new ≡ puts writing.old (spec.rollback_to name.now)) }
{
    writing.word(Keyword::Rollback)?;
    writing.word(Keyword::To)?;
    writing.word(Keyword::Savepoint)?;
    writing.name(name)
}

fn savepoint(writing: &mut Writing, name: &Name) -> Result<(), NoMemory>
    ensures { OnOk result (writing.new ≡ puts writing.old (spec.savepoint name.now)) }
{
    writing.word(Keyword::Savepoint)?;
    writing.name(name)
}

fn release(writing: &mut Writing, name: &Name) -> Result<(), NoMemory>
    ensures { OnOk result (writing.new ≡ puts writing.old (spec.release name.now)) }
{
    writing.word(Keyword::Release)?;
    writing.word(Keyword::Savepoint)?;
    writing.name(name)
}

pub fn write_statement(writing: &mut Writing, statement: &Statement) -> Result<(), NoMemory>
    ensures { OnOk result (writing.new ≡ puts writing.old (spec.statement_tokens statement.now)) }
{
    match statement {
        Statement::CreateTable { name, elements } => create_table(writing, name, elements),
        Statement::CreateIndex {
            name,
            table,
            columns,
        } => create_index(writing, name, table, columns),
        Statement::DropTable { name } => drop_table(writing, name),
        Statement::Insert {
            table,
            columns,
            source,
        } => insert(writing, table, columns, source),
        Statement::Update {
            table,
            sets,
            filter,
        } => update(writing, table, sets, filter),
        Statement::Delete { table, filter } => delete(writing, table, filter),
        Statement::Select(select) => query(writing, select),
        Statement::Commit => writing.word(Keyword::Commit),
        Statement::Checkpoint => writing.word(Keyword::Checkpoint),
        Statement::Rollback => writing.word(Keyword::Rollback),
        Statement::RollbackTo { name } => rollback_to(writing, name),
        Statement::Savepoint { name } => savepoint(writing, name),
        Statement::Release { name } => release(writing, name),
        Statement::SetLevel(level) => set_level(writing, *level),
        Statement::SetBlocking(on) => set_blocking(writing, *on),
    }
}
