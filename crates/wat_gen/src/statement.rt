use std::fmt;

/// A statement of a session that is made up. Its table `g` has the key `k` and a number `v`, and an
/// index on `v`.
#[derive(Clone, Copy, Debug, PartialEq, Eq)]
pub enum Statement {
    /// Makes the table.
    CreateTable,
    /// Makes the index on `v`.
    CreateIndex,
    /// Inserts a row.
    Insert { k: u64, v: u64 },
    /// Gives a `v` to the rows whose key lies between two numbers.
    Update { v: u64, low: u64, high: u64 },
    /// Deletes the row of a key.
    Delete { k: u64 },
    /// Counts the rows whose `v` lies between two numbers, and adds up their keys.
    Count { low: u64, high: u64 },
    Commit,
    /// Sets the isolation level.
    SetLevel { level: u8 },
    /// Has statements answer at once where they would wait for a lock.
    SetBlockingOff,
}

/// The numbers from `low` to `high`.
#[derive(Drop)]
struct Between {
    low: u64,
    high: u64,
}

impl fmt::Display for Between {
    ghost use Rattle.std.specs.Prelude.{Some};
    ghost use Rattle.wat_gen.specs.Between.{between_text};

    ghost output = { λ between. Some (between_text between.low between.high) };

    #[tactic(auto, unfolding(crate::specs::Between::between_text))]
    fn fmt<W: fmt::Write>(&self, f: &mut fmt::Formatter<W>) -> fmt::Result {
        let low = self.low;
        let high = self.high;
        write!(f, "BETWEEN {low} AND {high}")
    }
}

impl fmt::Display for Statement {
    ghost use Rattle.std.specs.Prelude.{Some};
    ghost use Rattle.wat_gen.specs.Statements.{statement_text};

    ghost output = { λ statement. Some (statement_text statement) };

    fn fmt<W: fmt::Write>(&self, f: &mut fmt::Formatter<W>) -> fmt::Result {
        match *self {
            Statement::CreateTable => {
                write!(
                    f,
                    "CREATE TABLE g (k INTEGER PRIMARY KEY, v INTEGER NOT NULL);"
                )
            }
            Statement::CreateIndex => write!(f, "CREATE INDEX gv ON g (v);"),
            Statement::Insert { k, v } => write!(f, "INSERT INTO g VALUES ({k}, {v});"),
            Statement::Update { v, low, high } => {
                let keys = Between { low, high };
                write!(f, "UPDATE g SET v = {v} WHERE k {keys};")
            }
            Statement::Delete { k } => write!(f, "DELETE FROM g WHERE k = {k};"),
            Statement::Count { low, high } => {
                let numbers = Between { low, high };
                write!(f, "SELECT COUNT(*), SUM(k) FROM g WHERE v {numbers};")
            }
            Statement::Commit => write!(f, "COMMIT;"),
            Statement::SetLevel { level } => {
                write!(f, "SET TEMPORARY OPTION ISOLATION_LEVEL = {level};")
            }
            Statement::SetBlockingOff => write!(f, "SET TEMPORARY OPTION BLOCKING = OFF;"),
        }
    }
}
