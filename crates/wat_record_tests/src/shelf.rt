// A target that keeps its rows in a list, in the order in which they came. It stands for no state that a contract
// names, so that what it does is shown by running it.
use std::alloc::Global;
use wat_list::{Copied, Items};
use wat_recover::{ChangeLists, Target, TargetError};
use wat_schema::Schema;
use wat_value::{Change, Key, Row, Rows, SchemaChange, compare_rows};

#[derive(Drop)]
pub struct Shelf {
    alloc: Global,
    schema: Schema,
    rows: Rows,
    lists: ChangeLists,
}

impl Shelf {
    pub fn new(alloc: Global) -> Self {
        Shelf {
            alloc,
            schema: Schema::new(alloc),
            rows: Items::new(alloc),
            lists: ChangeLists::new(alloc),
        }
    }

    pub fn rows(&self) -> usize {
        self.rows.len()
    }

    // Takes away the first row of these values.
    fn take(&mut self, row: &Row) {
        for i in 0..self.rows.len() {
            if let Some(found) = self.rows.get(i) {
                if compare_rows(found.as_slice(), row.as_slice()).is_eq() {
                    self.rows.remove(i);
                    return;
                }
            }
        }
    }
}

impl Target for Shelf {
    ghost stands_for = { λ _ _. ⊥ };

    ghost goes = { λ _ _. Unit {0} };

    ghost failures = { λ _. 0 };

    fn schema(&self) -> &Schema {
        &self.schema
    }

    fn row(&mut self, table: u32, key: &Key) -> Result<Option<Row>, TargetError> {
        let Some(def) = self.schema.def(table) else {
            return Ok(None);
        };
        for row in self.rows.as_slice() {
            let of_row = def.key_of(self.alloc, row)?;
            if of_row == *key {
                return Ok(Some(row.copy(self.alloc)?));
            }
        }
        Ok(None)
    }

    fn make(&mut self, change: &Change) -> Result<(), TargetError> {
        match change {
            Change::Insert { row, .. } => {
                let row = row.copy(self.alloc)?;
                self.rows.push(row)?;
            }
            Change::Update { before, after, .. } => {
                let after = after.copy(self.alloc)?;
                self.take(before);
                self.rows.push(after)?;
            }
            Change::Delete { before, .. } => self.take(before),
        }
        Ok(())
    }

    fn alter(&mut self, change: &SchemaChange) -> Result<(), TargetError> {
        if self.schema.allows(change) {
            self.schema.apply(change)?;
        }
        Ok(())
    }

    fn push(&mut self, conn: u16, change: Change) -> Result<(), TargetError> {
        self.lists.push(conn, change)?;
        Ok(())
    }

    fn pop(&mut self, conn: u16) -> Option<Change> {
        self.lists.pop(conn)
    }

    fn count(&self, conn: u16) -> u32 {
        self.lists.count(conn)
    }

    fn next_open(&self, from: u32) -> Option<u16> {
        self.lists.next_open(from)
    }

    fn changed_by_other(&self, conn: u16, table: u32, key: &Key) -> bool {
        self.lists.changed_by_other(&self.schema, conn, table, key)
    }

    ghost still = { λ _. tt };

    ghost goes_on = { λ _ _ _ _ _. tt };
}
