//! CREATE and DROP.

ghost use Rattle.std.specs.Prelude.{◌≡◌};
ghost use Rattle.wat_grammar.specs.Phrase.{read_within};
ghost use Rattle.wat_cursor.specs.Reading.{Reads};
ghost use Rattle.wat_statements.specs.ColumnRules as rule;
ghost use Rattle.wat_syntax.specs.Sql as spec;
ghost use Rattle.wat_syntax.specs.Sql.{sql, max_nesting};

use crate::list::{Part, list, names_in_parentheses};
use std::alloc::Global;
use wat_ast::{Element, Elements, Name, Names, Statement, TypeName};
use wat_cursor::{Cursor, Fault};
use wat_syntax::Kind;

/// A rule of a column.
#[derive(Clone, Copy, Debug, PartialEq, Eq)]
pub enum Rule {
    NotNull,
    Null,
    PrimaryKey,
}

/// What the rules of a column say.
#[derive(Clone, Copy, Debug, PartialEq, Eq)]
pub struct Rules {
    pub nullable: bool,
    pub key: bool,
}

const COLUMN_RULES: [Kind; 3] = [Kind::Not, Kind::Null, Kind::Primary];

impl Rules {
    /// What they say with one rule more, which may change what the others said.
    fn and(self, added: Rule) -> Rules
        ensures { rule.rules_of result ≡ rule.change_of added (rule.rules_of self) }
    {
        match added {
            Rule::NotNull => Rules {
                nullable: false,
                key: self.key,
            },
            Rule::Null => Rules {
                nullable: true,
                key: self.key,
            },
            Rule::PrimaryKey => Rules {
                nullable: self.nullable,
                key: true,
            },
        }
    }
}

// ( number ).
fn length(cursor: &mut Cursor<'_>) -> Result<i64, Fault>
    ensures { Reads (read_within sql max_nesting (spec.in_parentheses spec.number) cursor.old) result cursor.new }
{
    cursor.word(Kind::Open)?;
    let length = cursor.number()?;
    cursor.word(Kind::Close)?;
    Ok(length)
}

#[tactic(auto, unfolding(wat_syntax::specs::Sql::type_name))]
fn type_name(cursor: &mut Cursor<'_>) -> Result<TypeName, Fault>
    ensures { Reads (read_within sql max_nesting spec.type_name cursor.old) result cursor.new }
{
    if cursor.sees(Kind::Integer) {
        cursor.word(Kind::Integer)?;
        return Ok(TypeName::Integer);
    }
    if cursor.sees(Kind::Int) {
        cursor.word(Kind::Int)?;
        return Ok(TypeName::Integer);
    }
    if cursor.sees(Kind::Char) {
        cursor.word(Kind::Char)?;
        return Ok(TypeName::Char(length(cursor)?));
    }
    cursor.word(Kind::Varchar)?;
    Ok(TypeName::Varchar(length(cursor)?))
}

// NOT NULL | NULL | PRIMARY KEY.
#[tactic(auto, unfolding(wat_syntax::specs::Sql::column_rule))]
fn column_rule(cursor: &mut Cursor<'_>) -> Result<Rule, Fault>
    ensures { rule.ReadsAs rule.change_of (read_within sql max_nesting spec.column_rule cursor.old) result cursor.new }
{
    if cursor.sees(Kind::Not) {
        cursor.word(Kind::Not)?;
        cursor.word(Kind::Null)?;
        return Ok(Rule::NotNull);
    }
    if cursor.sees(Kind::Null) {
        cursor.word(Kind::Null)?;
        return Ok(Rule::Null);
    }
    cursor.word(Kind::Primary)?;
    cursor.word(Kind::Key)?;
    Ok(Rule::PrimaryKey)
}

fn column_rules(cursor: &mut Cursor<'_>) -> Result<Rules, Fault>
    ensures { rule.ReadsAs rule.rules_of (read_within sql max_nesting rule.column_rules cursor.old) result cursor.new }
{
    let mut rules = Rules {
        nullable: true,
        key: false,
    };
    'rules: for _turn in 0..cursor.len() {
        if !cursor.sees_any(&COLUMN_RULES) {
            return Ok(rules);
        }
        let rule = column_rule(cursor)?;
        rules = rules.and(rule);
    }
    Ok(rules)
}

// name type {NOT NULL | NULL | PRIMARY KEY}.
#[tactic(auto, using(crate::proofs::Elements::defined_column_is))]
fn defined_column(alloc: Global, cursor: &mut Cursor<'_>) -> Result<Element, Fault>
    ensures { Reads (read_within sql max_nesting spec.defined_column cursor.old) result cursor.new }
{
    let name = cursor.name(alloc)?;
    let kind = type_name(cursor)?;
    let rules = column_rules(cursor)?;
    Ok(Element::Column {
        name,
        kind,
        nullable: rules.nullable,
        key: rules.key,
    })
}

// PRIMARY KEY ( name {, name} ).
#[tactic(auto, unfolding(wat_syntax::specs::Sql::key_element))]
fn key_element(alloc: Global, cursor: &mut Cursor<'_>) -> Result<Element, Fault>
    ensures { Reads (read_within sql max_nesting spec.key_element cursor.old) result cursor.new }
{
    cursor.word(Kind::Primary)?;
    cursor.word(Kind::Key)?;
    Ok(Element::Key(names_in_parentheses(alloc, cursor)?))
}

struct ListedElement;

impl Part for ListedElement {
    ghost use Rattle.wat_syntax.specs.Sql.{element};

    type Tree = Element;

    ghost rule = { element };

    #[tactic(auto, using(crate::proofs::Firsts::first_defined_column), unfolding(wat_syntax::specs::Sql::element))]
    fn read(alloc: Global, cursor: &mut Cursor<'_>) -> Result<Element, Fault> {
        if cursor.sees(Kind::Name) {
            return defined_column(alloc, cursor);
        }
        key_element(alloc, cursor)
    }
}

fn elements(alloc: Global, cursor: &mut Cursor<'_>) -> Result<Elements, Fault>
    ensures { Reads (read_within sql max_nesting (spec.in_parentheses (spec.list spec.element)) cursor.old) result cursor.new }
{
    cursor.word(Kind::Open)?;
    let found = list::<ListedElement>(alloc, cursor)?;
    cursor.word(Kind::Close)?;
    Ok(found)
}

// TABLE name ( element {, element} ).
#[tactic(auto, unfolding(wat_syntax::specs::Sql::create_table))]
fn create_table(alloc: Global, cursor: &mut Cursor<'_>) -> Result<Statement, Fault>
    ensures { Reads (read_within sql max_nesting spec.create_table cursor.old) result cursor.new }
{
    cursor.word(Kind::Table)?;
    let name = cursor.name(alloc)?;
    let elements = elements(alloc, cursor)?;
    Ok(Statement::CreateTable { name, elements })
}

struct ListedIndexColumn;

impl Part for ListedIndexColumn {
    ghost use Rattle.wat_syntax.specs.Sql.{index_column};

    type Tree = Name;

    ghost rule = { index_column };

    #[tactic(auto, unfolding(wat_syntax::specs::Sql::index_column))]
    fn read(alloc: Global, cursor: &mut Cursor<'_>) -> Result<Name, Fault> {
        let name = cursor.name(alloc)?;
        let _ = cursor.takes(Kind::Asc);
        Ok(name)
    }
}

fn index_columns(alloc: Global, cursor: &mut Cursor<'_>) -> Result<Names, Fault>
    ensures { Reads (read_within sql max_nesting (spec.in_parentheses (spec.list spec.index_column)) cursor.old) result cursor.new }
{
    cursor.word(Kind::Open)?;
    let found = list::<ListedIndexColumn>(alloc, cursor)?;
    cursor.word(Kind::Close)?;
    Ok(found)
}

// INDEX name ON name ( name [ASC] {, name [ASC]} ).
#[tactic(auto, unfolding(wat_syntax::specs::Sql::create_index))]
fn create_index(alloc: Global, cursor: &mut Cursor<'_>) -> Result<Statement, Fault>
    ensures { Reads (read_within sql max_nesting spec.create_index cursor.old) result cursor.new }
{
    cursor.word(Kind::Index)?;
    let name = cursor.name(alloc)?;
    cursor.word(Kind::On)?;
    let table = cursor.name(alloc)?;
    let columns = index_columns(alloc, cursor)?;
    Ok(Statement::CreateIndex {
        name,
        table,
        columns,
    })
}

/// CREATE TABLE or CREATE INDEX.
#[tactic(auto, using(crate::proofs::Firsts::first_create_table), unfolding(wat_syntax::specs::Sql::create))]
pub fn create(alloc: Global, cursor: &mut Cursor<'_>) -> Result<Statement, Fault>
    ensures { Reads (read_within sql max_nesting spec.create cursor.old) result cursor.new }
{
    cursor.word(Kind::Create)?;
    if cursor.sees(Kind::Table) {
        return create_table(alloc, cursor);
    }
    create_index(alloc, cursor)
}

/// DROP TABLE name.
#[tactic(auto, unfolding(wat_syntax::specs::Sql::drop_table))]
pub fn drop_table(alloc: Global, cursor: &mut Cursor<'_>) -> Result<Statement, Fault>
    ensures { Reads (read_within sql max_nesting spec.drop_table cursor.old) result cursor.new }
{
    cursor.word(Kind::Drop)?;
    cursor.word(Kind::Table)?;
    let name = cursor.name(alloc)?;
    Ok(Statement::DropTable { name })
}
