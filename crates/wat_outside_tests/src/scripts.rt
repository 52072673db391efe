use crate::fixtures::{known_bytes, words_of};
use std::alloc::{AllocError, Global};
use std::fs;
use std::test::Fail;
use wat_begin::{Fault, read_scripts};
use wat_conn::Script;
use wat_io::{FileScripts, MemoryScripts, ScriptError, Scripts};
use wat_list::Copied;

/// Scripts in memory under the names of a line, of which these reads fail.
fn scripts_of(
    alloc: Global,
    line: &str,
    texts: &[&[u8]],
    fails: &[u64],
) -> Result<MemoryScripts, AllocError> {
    let names = words_of(alloc, line)?;
    let mut copies = Vec::new(alloc);
    for text in texts {
        copies.push(Vec::from_slice(alloc, text)?)?;
    }
    let fails = Vec::from_slice(alloc, fails)?;
    if copies.len() == names.len() {
        Ok(MemoryScripts::new(names, copies, fails))
    } else {
        Err(AllocError)
    }
}

/// What a read answers, and what stands then behind the `>` that stood before.
fn read_into<L: Scripts>(
    alloc: Global,
    scripts: &mut L,
    name: &str,
    most: usize,
) -> Result<(Result<(), ScriptError>, Vec<u8>), AllocError> {
    let mut into = Vec::from_slice(alloc, b">")?;
    let answer = scripts.read(name, most, &mut into);
    Ok((answer, into))
}

#[test]
fn scripts_in_memory_are_read_by_name(rt: HostRuntime) -> Result<(), Fail> {
    let alloc = rt.alloc();
    let texts: [&[u8]; 3] = [b"SELECT", b"", b"COMMIT"];
    let mut scripts = scripts_of(alloc, "one.sql empty.sql one.sql", &texts, &[1, 3])?;
    let reads = [
        ("one.sql", 6, Ok(()), ">SELECT"),
        ("one.sql", 6, Err(ScriptError::Failed), ">"),
        ("one.sql", 5, Ok(()), ">SELEC"),
        ("two.sql", 6, Err(ScriptError::Failed), ">"),
        ("one.sql", 0, Ok(()), ">"),
        ("empty.sql", 6, Ok(()), ">"),
        ("two.sql", 6, Err(ScriptError::Absent), ">"),
    ];
    for (name, most, answer, text) in reads {
        let (found, into) = read_into(alloc, &mut scripts, name, most)?;
        assert_eq!(rt; found, answer, "{name} {most}");
        assert_eq!(rt; into.as_slice(), text.as_bytes(), "{name} {most}");
    }
    Ok(())
}

#[test]
fn a_file_is_read_byte_for_byte(rt: HostRuntime) -> Result<(), Fail> {
    let alloc = rt.alloc();
    let held = known_bytes(alloc, 10000)?;
    fs::write(&rt, "known.sql", held.as_slice())?;
    let mut scripts = FileScripts::new(&rt);
    for (most, length) in [
        (0, 0),
        (1, 1),
        (4096, 4096),
        (4097, 4097),
        (9999, 9999),
        (20000, 10000),
    ] {
        let (answer, into) = read_into(alloc, &mut scripts, "known.sql", most)?;
        assert_eq!(rt; answer, Ok(()), "{most}");
        assert_eq!(rt; into.get(..1), Some(b">".as_slice()), "{most}");
        assert_eq!(rt; into.get(1..), held.get(..length), "{most}");
    }
    fs::remove_file(&rt, "known.sql")?;
    for name in ["known.sql", "/"] {
        let (answer, into) = read_into(alloc, &mut scripts, name, 5)?;
        assert_eq!(rt; answer, Err(ScriptError::Failed), "{name}");
        assert_eq!(rt; into.as_slice(), b">".as_slice(), "{name}");
    }
    Ok(())
}

/// Whether there are so many scripts, each of this text.
fn are_all(scripts: &[Script], count: usize, text: &str) -> bool {
    scripts.len() == count && scripts.iter().all(|script| script.as_str() == text)
}

/// The fault that reading the scripts of a line meets. Each that is read is `é;`, or a usage fault stands for the test's own.
fn fault_of(
    alloc: Global,
    line: &str,
    scripts: &mut MemoryScripts,
) -> Result<Option<Fault>, AllocError> {
    let names = words_of(alloc, line)?;
    match read_scripts(alloc, &names, scripts) {
        Ok(texts) if are_all(texts.as_slice(), names.len(), "é;") => Ok(None),
        Ok(_) => Ok(Some(Fault::Usage)),
        Err(fault) => Ok(Some(fault)),
    }
}

#[test]
fn scripts_are_read_in_order_up_to_the_first_fault(rt: HostRuntime) -> Result<(), Fail> {
    let texts: [&[u8]; 5] = [
        "é;".as_bytes(),
        b"SE\xff",
        b"a\xe2\x82",
        b"\xed\xa0\x80",
        b"\xc3\xa9\xc0\x80",
    ];
    let mut scripts = scripts_of(rt.alloc(), "a bytes cut surrogate overlong", &texts, &[7])?;
    let rows = [
        ("a a", None),
        ("a none bytes", Some(Fault::CannotRead { script: 2 })),
        ("bytes none", Some(Fault::NotText { script: 1, at: 2 })),
        ("none", Some(Fault::CannotRead { script: 1 })),
        ("a a", Some(Fault::CannotRead { script: 2 })),
        ("a cut", Some(Fault::NotText { script: 2, at: 1 })),
        ("surrogate", Some(Fault::NotText { script: 1, at: 0 })),
        ("overlong", Some(Fault::NotText { script: 1, at: 2 })),
        ("a", None),
    ];
    for (line, fault) in rows {
        let found = fault_of(rt.alloc(), line, &mut scripts)?;
        assert_eq!(rt; found, fault, "{line}");
    }
    Ok(())
}

#[test]
fn each_fault_has_its_text(rt: HostRuntime) -> Result<(), Fail> {
    let rows = [
        (Fault::Usage, "usage"),
        (Fault::CannotRead { script: 2 }, "cannot read script 2"),
        (Fault::TooLong { script: 10 }, "script 10 is too long"),
        (
            Fault::NotText { script: 1, at: 0 },
            "script 1 is not text at 0",
        ),
        (Fault::NoDatabase, "no database"),
        (Fault::Exists, "a database is here"),
        (Fault::Damaged { at: 25 }, "damaged log at 25"),
        (Fault::DiskFault, "disk fault"),
        (Fault::Memory, "want of memory"),
    ];
    for (fault, text) in rows {
        let shown = format!(in rt.alloc(); "{fault}")?;
        assert_eq!(rt; shown.as_str(), text);
    }
    Ok(())
}

#[test]
fn a_script_keeps_its_text(rt: HostRuntime) -> Result<(), Fail> {
    let script = Script::of(rt.alloc(), "COMMIT;")?;
    assert_eq!(rt; script.as_str(), "COMMIT;");
    assert_eq!(rt; script.copy(rt.alloc())?.as_str(), "COMMIT;");
    let text = String::from_str(rt.alloc(), "SELECT")?;
    assert_eq!(rt; Script::from(text).as_str(), "SELECT");
    Ok(())
}
