ghost use Rattle.std.specs.Prelude.{◌≡◌, true, is_some, unwrap_or, IfOk, OnOk};
ghost use Rattle.wat_schema.specs.Definitions.{allows};
ghost use Rattle.wat_schema.specs.Tables.{Tables, after_alter, apply_change, catalog_of, row_at};

use wat_list::NoMemory;
use wat_schema::Schema;
use wat_value::{Change, Key, Row, SchemaChange};

/// Tables with their rows in memory, for a machine to work on.
pub trait RowTables {
    ghost tables: { Self → Tables };

    fn schema(&self) -> &Schema
        ensures { result.now ≡ catalog_of (tables self.now) };

    /// The row of the table with that primary key.
    fn row(&self, table: u32, key: &Key) -> Result<Option<Row>, NoMemory>
        ensures { IfOk result (λ row. row ≡ row_at (tables self.now) table key.now) };

    /// Makes a change where it applies, and answers whether it does.
    fn change(&mut self, change: &Change) -> Result<bool, NoMemory>
        ensures applied { IfOk result (λ applied. applied ≡ is_some (apply_change change.now (tables self.old))) }
        ensures after { OnOk result (tables self.new ≡ unwrap_or (apply_change change.now (tables self.old)) (tables self.old)) };

    /// Makes a change of the schema that is allowed.
    fn alter(&mut self, change: &SchemaChange) -> Result<(), NoMemory>
        requires { allows change.now (catalog_of (tables self.old)) ≡ true }
        ensures { OnOk result (tables self.new ≡ after_alter change.now (tables self.old)) };
}
