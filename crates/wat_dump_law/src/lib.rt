//! What the text of tables makes, run alone on an empty database: a law of the definition. The function does nothing, and states it.
#![tactic(auto)]

ghost use Rattle.std.specs.Prelude.{◌≡◌, List, Ok, Some, true, ℕ};
ghost use Rattle.wat_log_record.specs.Bodies.{SpellsLog};
ghost use Rattle.wat_log_record.specs.declared.log_record.LogRecord.{LogRecord};
ghost use Rattle.wat_replay.specs.Committed.{committed};
ghost use Rattle.wat_schema.specs.Tables.{IsTables, Tables, catalog_of, no_tables};
ghost use Rattle.wat_serial.specs.Script.{run};
ghost use Rattle.wat_dump.specs.Dump.{dump_text};
ghost use Rattle.wat_dump_law.specs.Anew.{anew, are_named};

use wat_script_texts::written_scripts_are_made;

/// The text that tables are written as, run alone on an empty database, gives these tables, numbered 1, 2 and so on in their order. The
/// text has no numbers of tables, so those of tables that were dropped are not in it.
pub fn dump_law()
    // The tables so numbered are written as the same text.
    ensures same { (t : Tables) → IsTables t → dump_text (anew t) ≡ dump_text t }
    // Where names are names, as they are in each definition that the program keeps, the text gives the tables so numbered.
    ensures runs { (t : Tables) → IsTables t → are_named (catalog_of t) ≡ true → run (dump_text t) no_tables ≡ Ok (anew t) }
    // So it is of the tables that the records of a log's frames have committed.
    ensures logged { (bodies : List (List ℕ)) (entries : List LogRecord) (t : Tables) → SpellsLog bodies entries → committed entries ≡ Some t → run (dump_text t) no_tables ≡ Ok (anew t) }
{
    written_scripts_are_made();
}
