//! The statements that write acts make these acts: laws of the definitions. Each function does nothing, and states laws.
#![tactic(auto)]

ghost use Rattle.std.specs.Prelude.{◌≡◌, Some, None, true};
ghost use Rattle.wat_ast.specs.declared.statement.Statement.{Statement};
ghost use Rattle.wat_meaning.specs.Meaning.{meaning};
ghost use Rattle.wat_schema.specs.Tables.{IsTables, Tables, apply, catalog_of, no_tables};
ghost use Rattle.wat_spell_laws.specs.AsRead.{statement_as_read};
ghost use Rattle.wat_spell_laws.specs.Readable.{is_readable};
ghost use Rattle.wat_value.specs.declared.change.Act.{Act};
ghost use Rattle.wat_written.specs.Written.{statement_of};
ghost use Rattle.wat_written_laws.specs.Meant.{meant};
ghost use Rattle.wat_written_laws.specs.Named.{act_named, all_named};

/// What becomes of an act that applies to tables, where it is written as a statement and that is run.
pub fn written_acts_are_made()
    // The statement, as its text is read, is not refused, and makes this act alone.
    ensures made { (t u : Tables) (s : Statement) (act : Act) → IsTables t → apply act t ≡ Some u → statement_of (catalog_of t) act ≡ Some s → meaning t (statement_as_read s) ≡ meant act }
    // An act that no statement writes changes nothing.
    ensures unwritten { (t u : Tables) (act : Act) → IsTables t → apply act t ≡ Some u → statement_of (catalog_of t) act ≡ None → u ≡ t }
{}

/// Where names are names, as they are in each definition that the program keeps.
pub fn written_acts_are_readable()
    // The statement can be read: its text gives it back.
    ensures readable { (t u : Tables) (s : Statement) (act : Act) → IsTables t → apply act t ≡ Some u → all_named (catalog_of t) ≡ true → act_named act ≡ true → statement_of (catalog_of t) act ≡ Some s → is_readable s ≡ true }
    // So it is of no tables, and acts keep it so.
    ensures empty { all_named (catalog_of no_tables) ≡ true }
    ensures kept { (t u : Tables) (act : Act) → IsTables t → apply act t ≡ Some u → all_named (catalog_of t) ≡ true → act_named act ≡ true → all_named (catalog_of u) ≡ true }
{}
