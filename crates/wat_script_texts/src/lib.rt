//! The text of a script of spelled statements is read as these statements, and running it makes what they make: laws of the definitions. Each
//! function does nothing, and states laws.
#![tactic(auto)]

ghost use Rattle.std.specs.List.{list_all};
ghost use Rattle.std.specs.Prelude.{◌≡◌, List, Ok, Some, map, true};
ghost use Rattle.wat_ast.specs.declared.statement.Statement.{Statement};
ghost use Rattle.wat_parse.specs.Parsing.{parsed_at};
ghost use Rattle.wat_parse.specs.Statements.{statements_of};
ghost use Rattle.wat_script_texts.specs.Runs.{is_run, run_trees};
ghost use Rattle.wat_script_texts.specs.Texts.{script_text};
ghost use Rattle.wat_script_texts.specs.Written.{IsWritten, acts_of, transactions_from};
ghost use Rattle.wat_value.specs.declared.change.Act.{Act};
ghost use Rattle.wat_written_laws.specs.Named.{act_named, all_named};
ghost use Rattle.wat_spell_laws.specs.AsRead.{statement_as_read};
ghost use Rattle.wat_spell_laws.specs.Readable.{is_readable};
ghost use Rattle.wat_schema.specs.Tables.{IsTables, Tables, apply_all, catalog_of};
ghost use Rattle.wat_serial.specs.Script.{run};

use wat_spell_laws::{numbers_below_zero_are_read, spelled_tokens_are_read};
use wat_written_laws::{written_acts_are_made, written_acts_are_readable};

/// A script is read as the statements that it was spelled from, in their order.
pub fn scripts_are_read()
    // Its text has a statement for each of them, and no other.
    ensures statements { (xs : List Statement) → list_all is_readable xs ≡ true
        → map (parsed_at (script_text xs)) (statements_of (script_text xs)) ≡ map (λ x. Ok (statement_as_read x)) xs }
    // Run over tables, each means what it means there: the acts are made, COMMIT changes nothing, and the first refusal is the answer.
    ensures run { (xs : List Statement) (t : Tables) → list_all is_readable xs ≡ true → list_all is_run xs ≡ true
        → run (script_text xs) t ≡ run_trees (map statement_as_read xs) t }
{
    spelled_tokens_are_read();
    numbers_below_zero_are_read();
}

/// The script of the statements that write acts makes these acts, where they apply one after another to the tables of a database, and names are
/// names, as in each definition that the program keeps.
pub fn written_scripts_are_made()
    // The tables after the script are those after the acts, with COMMIT at any places.
    ensures acts { (t u : Tables) (acts : List Act) (xs : List Statement) → IsTables t → all_named (catalog_of t) ≡ true → list_all act_named acts ≡ true
        → IsWritten t acts xs → apply_all acts t ≡ Some u → run (script_text xs) t ≡ Ok u }
    // So it is of transactions, one after another, each of which ends with COMMIT unless it changes the schema.
    ensures transactions { (t u : Tables) (log : List (List Act)) → IsTables t → all_named (catalog_of t) ≡ true → list_all act_named (acts_of log) ≡ true
        → apply_all (acts_of log) t ≡ Some u → run (script_text (transactions_from t log)) t ≡ Ok u }
{
    scripts_are_read();
    written_acts_are_made();
    written_acts_are_readable();
}
