// What a person is told beside the answers, on standard error. Nothing else depends on it.
use std::alloc::Global;
use std::fmt::Write;
use wat_begin::Fault;
use wat_conn::{Answer, Reply, Session};
use wat_folder::Holder;
use wat_list::NoMemory;
use wat_words::Command;

const COMMANDS: &str = "The commands, in the folder of the database:
  watsql init         makes an empty database
  watsql run SCRIPT   does the statements of the file SCRIPT, and writes an answer for each
  watsql translate    writes the committed transactions as statements of SQL
  watsql dump         writes the tables and their rows as statements of SQL
";

// Whether rows were changed after the last commit, so that the changes are dropped.
fn drops_changes(session: &Session) -> bool {
    let mut is_changed = false;
    for transcript in session.transcripts.as_slice() {
        for entry in transcript.as_slice() {
            match entry.answer {
                Answer::Given(Reply::Committed(_) | Reply::RolledBack) => is_changed = false,
                Answer::Given(Reply::Created(_) | Reply::Dropped(_)) => {}
                _ => is_changed = is_changed || !entry.acts.is_empty(),
            }
        }
    }
    is_changed && session.stop.is_none()
}

// Names a script, which the words after the command are, from script 1 on.
fn name_script(text: &mut String, words: &[String], script: u64) -> Result<(), NoMemory> {
    match words.get(script as usize) {
        Some(name) => writeln!(text, "Script {script} is {name:?}."),
        None => Ok(()),
    }
}

/// The commands with their words.
pub fn commands(alloc: Global) -> Result<String, NoMemory> {
    String::from_str(alloc, COMMANDS)
}

/// What helps whoever typed these words with what came of it; mostly nothing.
pub fn advice(
    alloc: Global,
    words: &[String],
    outcome: &Result<Command, Fault>,
    session: &Session,
    holder: Holder,
) -> Result<String, NoMemory> {
    let mut text = String::new(alloc);
    match outcome {
        Err(Fault::Usage) => text.push_str(COMMANDS)?,
        Err(Fault::CannotRead { script } | Fault::TooLong { script }) => {
            name_script(&mut text, words, *script)?
        }
        Err(Fault::NotText { script, at: _ }) => name_script(&mut text, words, *script)?,
        _ => {}
    }
    match holder {
        Holder::Another(Some(number)) => {
            writeln!(
                text,
                "Process {number} works in this folder; try again when it has ended."
            )?
        }
        Holder::Another(None) => {
            text.push_str("Another process works in this folder; try again when it has ended.\n")?
        }
        _ => {}
    }
    if drops_changes(session) {
        text.push_str(
            "The script ended without a COMMIT; what it changed since the last one is dropped.\n",
        )?;
    }
    Ok(text)
}
