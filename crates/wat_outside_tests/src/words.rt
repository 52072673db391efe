use crate::fixtures::words_of;
use std::test::Fail;
use wat_words::{Command, read_words, script_names};

#[test]
fn words_are_a_command_or_none(rt: HostRuntime) -> Result<(), Fail> {
    let rows = [
        ("init", Some(Command::Init)),
        ("translate", Some(Command::Translate)),
        ("dump", Some(Command::Dump)),
        ("dump", Some(Command::Dump)),
        ("run a.sql", Some(Command::Run)),
        ("run ", Some(Command::Run)),
        ("run help", Some(Command::Run)),
        ("run init", Some(Command::Run)),
        ("", None),
        ("frob", None),
        ("play 3 a.sql", None),
        ("init --pages 15", None),
        ("init a.sql", None),
        ("dump a.sql", None),
        ("dump a.sql", None),
        ("init ", None),
        ("run", None),
        ("run a b", None),
        ("run -", None),
        ("run --", None),
        ("run -a.sql", None),
        ("-- run a.sql", None),
        ("--help", None),
        ("-V", None),
        ("help", None),
        ("help run", None),
        ("Run a.sql", None),
        ("ini", None),
    ];
    assert_eq!(rt; read_words(rt.alloc(), &[])?, None);
    for (line, command) in rows {
        let words = words_of(rt.alloc(), line)?;
        assert_eq!(rt; read_words(rt.alloc(), &words)?, command, "{line}");
    }
    Ok(())
}

#[test]
fn a_command_names_its_scripts(rt: HostRuntime) -> Result<(), Fail> {
    let words = words_of(rt.alloc(), "run a.sql")?;
    let names = script_names(Command::Run, &words);
    assert_eq!(rt; names.len(), 1);
    assert_eq!(rt; names[0].as_str(), "a.sql");
    assert!(rt; script_names(Command::Init, &words).is_empty());
    Ok(())
}
