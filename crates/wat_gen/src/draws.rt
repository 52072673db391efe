ghost use Rattle.std.specs.Prelude.{◌≡◌, ◌<◌, ◌+◌, OnOk, ◌++◌};
ghost use Rattle.wat_gen.specs.Numbers.{Gives, draw};
ghost use Rattle.wat_gen.specs.Statements.{drawn_insert, drawn_update, drawn_delete, drawn_count, drawn_statement, drawn_transaction};
ghost use Rattle.wat_gen.specs.Schedule.{drawn_turn};

use crate::statement::Statement;
use wat_schedule::Item;

/// The number from which the next one is drawn.
#[derive(Drop)]
pub(crate) struct Draws {
    pub(crate) number: u64,
}

impl Draws {
    /// Draws a number below `below`.
    fn draw(&mut self, below: u64) -> u64
        requires { 0 < below }
        ensures drawn { Gives (draw below) self.old.number result self.new.number }
        ensures within { result < below }
    {
        self.number = self
            .number
            .wrapping_mul(6364136223846793005)
            .wrapping_add(1442695040888963407);
        (self.number >> 33) % below
    }

    fn insert(&mut self) -> Statement
        ensures { Gives drawn_insert self.old.number result self.new.number }
    {
        let k = self.draw(1000);
        let v = self.draw(100);
        Statement::Insert { k, v }
    }

    fn update(&mut self) -> Statement
        ensures { Gives drawn_update self.old.number result self.new.number }
    {
        let low = self.draw(1000);
        let width = self.draw(20);
        let v = self.draw(100);
        Statement::Update {
            v,
            low,
            high: low + width,
        }
    }

    fn delete(&mut self) -> Statement
        ensures { Gives drawn_delete self.old.number result self.new.number }
    {
        let k = self.draw(1000);
        Statement::Delete { k }
    }

    fn count(&mut self) -> Statement
        ensures { Gives drawn_count self.old.number result self.new.number }
    {
        let low = self.draw(100);
        Statement::Count { low, high: low + 9 }
    }

    fn statement(&mut self) -> Statement
        ensures { Gives drawn_statement self.old.number result self.new.number }
    {
        match self.draw(4) {
            0 => self.insert(),
            1 => self.update(),
            2 => self.delete(),
            _ => self.count(),
        }
    }

    /// Draws a transaction: three statements, and the commit.
    pub(crate) fn transaction(&mut self) -> [Statement; 4]
        ensures { Gives drawn_transaction self.old.number result self.new.number }
    {
        let first = self.statement();
        let second = self.statement();
        let third = self.statement();
        [first, second, third, Statement::Commit]
    }

    /// Draws a turn of one of the eight connections.
    pub(crate) fn turn(&mut self) -> Item
        ensures { Gives drawn_turn self.old.number result self.new.number }
    {
        let conn = self.draw(8) as u16 + 1;
        Item {
            conn,
            single: false,
        }
    }
}
