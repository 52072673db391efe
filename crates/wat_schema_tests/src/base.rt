//! What each step does and says.

use crate::making::{columns, index, names, numbers, ordinals, table};
use std::alloc::{AllocError, Global};
use wat_list::Items;
use wat_schema::Schema;
use wat_value::{IndexDefs, SchemaChange, TableDefs};

/// A schema, and lists of definitions to make the next one of.
#[derive(Drop)]
pub(crate) struct Base {
    schema: Schema,
    defs: TableDefs,
    indexes: IndexDefs,
}

impl Base {
    pub(crate) fn new(alloc: Global) -> Base {
        Base {
            schema: Schema::new(alloc),
            defs: Items::new(alloc),
            indexes: Items::new(alloc),
        }
    }

    /// Makes the change where it is allowed.
    fn make(&mut self, alloc: Global, change: &SchemaChange) -> Result<String, AllocError> {
        if self.schema.allows(change) {
            self.schema.apply(change)?;
            String::from_str(alloc, "made")
        } else {
            String::from_str(alloc, "not allowed")
        }
    }

    fn make_table(&mut self, alloc: Global, number: u32, text: &str) -> anyhow::Result<String> {
        let change = SchemaChange::CreateTable(table(alloc, number, text)?);
        Ok(self.make(alloc, &change)?)
    }

    fn make_index(
        &mut self,
        alloc: Global,
        table: u32,
        number: u8,
        text: &str,
    ) -> anyhow::Result<String> {
        let change = SchemaChange::CreateIndex(index(alloc, table, number, text)?);
        Ok(self.make(alloc, &change)?)
    }

    /// Changes the schema by a step, or answers None where the step changes none.
    pub(crate) fn change(
        &mut self,
        alloc: Global,
        step: &str,
        table: u32,
        number: u8,
        text: &str,
    ) -> anyhow::Result<Option<String>> {
        match step {
            "create" => Ok(Some(self.make_table(alloc, table, text)?)),
            "index" => Ok(Some(self.make_index(alloc, table, number, text)?)),
            "drop" => Ok(Some(self.make(alloc, &SchemaChange::DropTable { table })?)),
            _ => Ok(None),
        }
    }

    fn said_definition(&self, alloc: Global, table: u32) -> Result<String, AllocError> {
        match self.schema.def(table) {
            Some(def) => String::from_str(alloc, def.name.as_str()),
            None => String::from_str(alloc, "not there"),
        }
    }

    fn said_index(&self, alloc: Global, table: u32, number: u8) -> Result<String, AllocError> {
        match self.schema.index(table, number) {
            Some(index) => String::from_str(alloc, index.name.as_str()),
            None => String::from_str(alloc, "not there"),
        }
    }

    /// What is found in the schema, or None where the step looks for nothing.
    pub(crate) fn found(
        &self,
        alloc: Global,
        step: &str,
        table: u32,
        number: u8,
        text: &str,
    ) -> Result<Option<String>, AllocError> {
        let schema = &self.schema;
        match step {
            "named" => Ok(Some(format!(in alloc; "{:?}", schema.table(text))?)),
            "column" => Ok(Some(format!(in alloc; "{:?}", schema.column(table, text))?)),
            "indexed" => Ok(Some(format!(in alloc; "{:?}", schema.has_index(text))?)),
            "next_index" => Ok(Some(format!(in alloc; "{:?}", schema.next_index(table))?)),
            "next" => Ok(Some(format!(in alloc; "{}", schema.next())?)),
            "table_at" => Ok(Some(self.said_definition(alloc, table)?)),
            "index_at" => Ok(Some(self.said_index(alloc, table, number)?)),
            _ => Ok(None),
        }
    }

    /// The rule that a table with these columns breaks, as in `k,v=20/k`: its keys follow, each behind
    /// a `/`.
    fn broken_by_table(&self, alloc: Global, text: &str) -> anyhow::Result<Option<u8>> {
        let mut parts = text.split('/');
        let columns = columns(alloc, parts.next().unwrap_or(""))?;
        let mut keys = Items::new(alloc);
        for part in parts {
            keys.push(names(alloc, part)?)?;
        }
        Ok(self.schema.bad_table(&columns, &keys)?)
    }

    /// The rule that an index of the table over these columns breaks, as in `0,1`.
    fn broken_by_index(&self, alloc: Global, table: u32, text: &str) -> anyhow::Result<Option<u8>> {
        let columns = numbers(alloc, text)?;
        Ok(self.schema.bad_index(table, &columns))
    }

    /// Which rule is broken, or None where the step asks for none.
    pub(crate) fn broken(
        &self,
        alloc: Global,
        step: &str,
        table: u32,
        text: &str,
    ) -> anyhow::Result<Option<String>> {
        let rule = match step {
            "bad_table" => self.broken_by_table(alloc, text)?,
            "bad_index" => self.broken_by_index(alloc, table, text)?,
            _ => return Ok(None),
        };
        Ok(Some(format!(in alloc; "{rule:?}")?))
    }

    fn list_table(&mut self, alloc: Global, number: u32, text: &str) -> anyhow::Result<()> {
        Ok(self.defs.push(table(alloc, number, text)?)?)
    }

    fn list_index(
        &mut self,
        alloc: Global,
        table: u32,
        number: u8,
        text: &str,
    ) -> anyhow::Result<()> {
        Ok(self.indexes.push(index(alloc, table, number, text)?)?)
    }

    /// Lists table 1 with a key of a column so many times.
    fn list_key(
        &mut self,
        alloc: Global,
        times: u32,
        column: u8,
        text: &str,
    ) -> anyhow::Result<()> {
        let mut def = table(alloc, 1, text)?;
        def.key = ordinals(alloc, column, times)?;
        Ok(self.defs.push(def)?)
    }

    /// Lists index 1 of table 1 over a column so many times.
    fn list_columns(
        &mut self,
        alloc: Global,
        times: u32,
        column: u8,
        text: &str,
    ) -> anyhow::Result<()> {
        let mut def = index(alloc, 1, 1, text)?;
        def.columns = ordinals(alloc, column, times)?;
        Ok(self.indexes.push(def)?)
    }

    /// Lists tables from 1 up to this number, called by the text and the number.
    fn list_many(&mut self, alloc: Global, last: u32, text: &str) -> anyhow::Result<()> {
        for i in 0..last {
            let name = format!(in alloc; "{text}{}", i as u64 + 1)?;
            self.list_table(alloc, i.saturating_add(1), name.as_str())?;
        }
        Ok(())
    }

    /// Adds to the lists by a step, and answers whether it is one that does.
    pub(crate) fn list(
        &mut self,
        alloc: Global,
        step: &str,
        table: u32,
        number: u8,
        text: &str,
    ) -> anyhow::Result<bool> {
        match step {
            "list" => self.list_table(alloc, table, text)?,
            "list_index" => self.list_index(alloc, table, number, text)?,
            "list_key" => self.list_key(alloc, table, number, text)?,
            "list_columns" => self.list_columns(alloc, table, number, text)?,
            "list_many" => self.list_many(alloc, table, text)?,
            _ => return Ok(false),
        }
        Ok(true)
    }

    /// Goes on with the schema of the lists, where they are those of one, and empties them.
    pub(crate) fn of_lists(&mut self, alloc: Global, next: u32) -> Result<String, AllocError> {
        let made = Schema::of(alloc, &self.defs, &self.indexes, next)?;
        self.defs = Items::new(alloc);
        self.indexes = Items::new(alloc);
        match made {
            Some(schema) => {
                self.schema = schema;
                String::from_str(alloc, "a schema")
            }
            None => String::from_str(alloc, "none"),
        }
    }

    /// Goes on with the schema of what this one gives.
    pub(crate) fn again(&mut self, alloc: Global) -> Result<String, AllocError> {
        self.defs = self.schema.defs()?;
        self.indexes = self.schema.indexes()?;
        let next = self.schema.next();
        self.of_lists(alloc, next)
    }

    /// All that the schema gives.
    pub(crate) fn shown(&self, alloc: Global) -> Result<String, AllocError> {
        let mut text = String::new(alloc);
        let defs = self.schema.defs()?;
        for def in defs.as_slice() {
            let said = format!(in alloc; "{} {}, ", def.number, def.name.as_str())?;
            text.push_str(said.as_str())?;
        }
        let indexes = self.schema.indexes()?;
        for index in indexes.as_slice() {
            let name = index.name.as_str();
            let said = format!(in alloc; "{} of {} {name}, ", index.number, index.table)?;
            text.push_str(said.as_str())?;
        }
        let said = format!(in alloc; "next {}", self.schema.next())?;
        text.push_str(said.as_str())?;
        Ok(text)
    }
}
