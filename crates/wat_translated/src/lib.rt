//! The text of SQL that a log is read back as, and its law. The function does nothing, and states the law.
#![tactic(auto)]

ghost use Rattle.std.specs.Prelude.{◌≡◌, List, Ok, Some, ℕ};
ghost use Rattle.wat_log_record.specs.Bodies.{SpellsLog};
ghost use Rattle.wat_log_record.specs.declared.log_record.LogRecord.{LogRecord};
ghost use Rattle.wat_replay.specs.Committed.{commits_of, committed};
ghost use Rattle.wat_replay.specs.State.{Lists};
ghost use Rattle.wat_schema.specs.Tables.{Tables, no_tables};
ghost use Rattle.wat_script_texts.specs.Written.{acts_of};
ghost use Rattle.wat_serial.specs.Script.{run};
ghost use Rattle.wat_translated.specs.Translated.{transactions_of, translated};

use wat_script_texts::written_scripts_are_made;
use wat_written_laws::written_acts_are_readable;

/// What a log is read back as, run alone on an empty database, gives the tables that the log has committed.
pub fn translated_law()
    // The transactions are all that the records commit.
    ensures acts { (entries : List LogRecord) (lists : Lists) → acts_of (transactions_of entries lists) ≡ commits_of entries lists }
    // Their text, run over no tables, makes the committed tables. The records are those of a log's frames.
    ensures runs { (bodies : List (List ℕ)) (entries : List LogRecord) (t : Tables) → SpellsLog bodies entries → committed entries ≡ Some t → run (translated entries) no_tables ≡ Ok t }
{
    written_scripts_are_made();
    written_acts_are_readable();
}
