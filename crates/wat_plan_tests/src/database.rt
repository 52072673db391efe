ghost use Rattle.std.specs.Prelude.{◌≡◌, ◌<◌, true, length};
ghost use Rattle.wat_rules.specs.Changes.{changes_schema, IsAllowed};

use crate::printing::printed_interval;
use std::alloc::{AllocError, Global};
use wat_ast::{Expr, InsertSource, Query, Source, Statement};
use wat_expr::{Outcome, eval};
use wat_list::{Copied, Items, NoMemory};
use wat_plan::Plan;
use wat_rules::change_of;
use wat_schema::Schema;
use wat_value::{Combination, Row};

#[derive(Drop)]
struct Stored {
    table: u32,
    row: Row,
}

/// A schema, and rows in the order in which they were inserted.
#[derive(Drop)]
pub(crate) struct Database {
    pub schema: Schema,
    stored: Vec<Stored>,
}

impl Database {
    pub(crate) fn new(alloc: Global) -> Self {
        Database {
            schema: Schema::new(alloc),
            stored: Vec::new(alloc),
        }
    }

    /// Makes the change of a CREATE, stores the row of an INSERT, or plans a SELECT.
    pub(crate) fn done(&mut self, alloc: Global, placed: &Statement) -> Result<String, AllocError>
        requires { changes_schema placed.now ≡ true → IsAllowed self.old.schema placed.now }
    {
        match placed {
            Statement::CreateTable { .. } => self.change(alloc, placed)?,
            Statement::CreateIndex { .. } => self.change(alloc, placed)?,
            Statement::Insert {
                table,
                source: InsertSource::Values(values),
                ..
            } => self.insert(alloc, table.as_str(), values.as_slice())?,
            Statement::Select(query) => return self.planned(alloc, query),
            _ => {}
        }
        String::from_str(alloc, "ok")
    }

    fn change(&mut self, alloc: Global, placed: &Statement) -> Result<(), NoMemory>
        requires { IsAllowed self.old.schema placed.now }
    {
        let change = change_of(alloc, placed, &self.schema)?;
        if self.schema.allows(&change) {
            self.schema.apply(&change)?;
        }
        Ok(())
    }

    fn insert(&mut self, alloc: Global, table: &str, values: &[Expr]) -> Result<(), AllocError> {
        let none = Items::new(alloc);
        let mut row = Items::new(alloc);
        for value in values {
            if let Outcome::Is(value) = eval(alloc, value, &none)? {
                row.push(value)?;
            }
        }
        if let Some(table) = self.schema.table(table) {
            self.stored.push(Stored { table, row })?;
        }
        Ok(())
    }

    // The last row of the table of each source.
    fn last_rows(&self, alloc: Global, sources: &[Source]) -> Result<Combination, NoMemory> {
        let mut rows = Items::new(alloc);
        for source in sources {
            rows.push(self.last_row(alloc, source.table.as_str())?)?;
        }
        Ok(rows)
    }

    fn last_row(&self, alloc: Global, table: &str) -> Result<Option<Row>, NoMemory> {
        let Some(table) = self.schema.table(table) else {
            return Ok(None);
        };
        let mut last = None;
        for stored in &self.stored {
            if stored.table == table {
                last = Some(stored.row.copy(alloc)?);
            }
        }
        Ok(last)
    }

    fn planned(&self, alloc: Global, query: &Query) -> Result<String, AllocError> {
        let outer = self.last_rows(alloc, query.sources.as_slice())?;
        let plan = Plan::of(alloc, query, &self.schema)?;
        let mut text = String::new(alloc);
        for depth in 0..plan.steps().len() {
            if depth > 0 {
                text.push_str("\n    ")?;
            }
            let scan = printed_scan(alloc, query, &plan, depth, &outer)?;
            text.push_str(scan.as_str())?;
        }
        Ok(text)
    }
}

// The visible name of the source, the number of the index, and the interval.
fn printed_scan(
    alloc: Global,
    query: &Query,
    plan: &Plan,
    depth: usize,
    outer: &Combination,
) -> Result<String, AllocError>
    requires { depth < length plan.now.steps }
{
    let interval = printed_interval(alloc, &plan.interval(depth, outer)?)?;
    let step = plan.steps()[depth];
    let name = match query.sources.get(step.source) {
        Some(source) => source.alias.as_ref().unwrap_or(&source.table).as_str(),
        None => "no source",
    };
    format!(in alloc; "{name} by {} {interval}", step.index)
}
