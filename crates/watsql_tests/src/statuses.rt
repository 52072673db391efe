// The statuses and their causes.
use crate::calls::{Around, FIRST, FIRST_LOG, FIRST_TEXT, is_answered, is_logged, over};
use std::io;
use std::test::Fail;
use wat_begin::Fault;
use wat_tool::words_of;

const USAGE: &str = "watsql: usage\n";

const HERE: &str = "watsql: a database is here\n";

const NO_SCRIPT: &str = "watsql: cannot read script 1\n";

const NO_DISK: &str = "watsql: disk fault\n";

/// The places of a byte that is no text.
const NO_TEXT: [&str; 7] = [
    "watsql: script 1 is not text at 0\n",
    "watsql: script 1 is not text at 1\n",
    "watsql: script 1 is not text at 2\n",
    "watsql: script 1 is not text at 3\n",
    "watsql: script 1 is not text at 4\n",
    "watsql: script 1 is not text at 5\n",
    "watsql: script 1 is not text at 6\n",
];

#[test]
fn words_that_are_no_command_are_usage(rt: HostRuntime) -> Result<(), Fail> {
    let well = over(&[0], FIRST.as_bytes());
    for line in [
        "frob",
        "",
        "play 3 a.sql",
        "init --pages 15",
        "init here",
        "run",
        "run a b",
        "run -a.sql",
        "run -- a.sql",
        "--help",
        "help",
    ] {
        assert!(rt;
            is_answered(rt.alloc(), line, &well, 1, USAGE.as_bytes())?,
            "{line}"
        );
    }
    let short = Around { room: 3, ..well };
    assert!(rt; is_answered(rt.alloc(), "frob", &short, 1, b"wat")?);
    Ok(())
}

#[test]
fn arguments_that_are_no_text_are_no_command(rt: HostRuntime) -> Result<(), Fail> {
    for (kind, fault) in [
        (io::ErrorKind::InvalidData, Fault::Usage),
        (io::ErrorKind::OutOfMemory, Fault::Memory),
    ] {
        let words = words_of(rt.alloc(), Err(io::Error::from(kind)));
        assert_eq!(rt; words.err(), Some(fault));
    }
    Ok(())
}

#[test]
fn each_status_has_its_cause(rt: HostRuntime) -> Result<(), Fail> {
    let well = over(&[0], FIRST.as_bytes());
    let new = over(&[], b"");
    let open = Around {
        log: &[0xa5],
        ..well
    };
    let logged = Around {
        log: &FIRST_LOG,
        ..well
    };
    let cut = Around {
        log: &FIRST_LOG[..100],
        ..well
    };
    let empty = Around { log: &[], ..well };
    let no_read = Around {
        read: Some(0),
        ..well
    };
    let no_write = Around {
        write: Some(0),
        ..well
    };
    let neither = Around {
        disk: Some(0),
        ..no_write
    };
    for (line, around, status, text) in [
        ("init", well, 3, HERE),
        ("init", Around { room: 3, ..well }, 3, "wat"),
        ("init", open, 3, HERE),
        ("init", logged, 3, HERE),
        (
            "init",
            Around {
                disk: Some(0),
                ..new
            },
            4,
            NO_DISK,
        ),
        (
            "init",
            Around {
                disk: Some(1),
                ..new
            },
            4,
            NO_DISK,
        ),
        (
            "init",
            Around {
                disk: Some(2),
                ..new
            },
            4,
            NO_DISK,
        ),
        // Neither scripts that cannot be read nor an output that takes nothing keep `init` from its work.
        (
            "init",
            Around {
                read: Some(0),
                write: Some(0),
                ..new
            },
            0,
            "",
        ),
        ("run ", well, 2, NO_SCRIPT),
        ("run b.sql", well, 2, NO_SCRIPT),
        ("run a.sql", no_read, 2, NO_SCRIPT),
        ("run a.sql", empty, 3, "watsql: no database\n"),
        ("run a.sql", open, 3, "watsql: damaged log at 0\n"),
        ("run a.sql", cut, 3, "watsql: damaged log at 28\n"),
        ("run a.sql", no_write, 5, ""),
        ("run a.sql", neither, 4, ""),
    ] {
        assert!(rt;
            is_answered(rt.alloc(), line, &around, status, text.as_bytes())?,
            "{line} {text}"
        );
    }
    Ok(())
}

#[test]
fn a_text_goes_out_as_far_as_there_is_room(rt: HostRuntime) -> Result<(), Fail> {
    let well = over(&[0], FIRST.as_bytes());
    let text = FIRST_TEXT.as_bytes();
    for room in 0..text.len() {
        let around = Around {
            room: room as u64,
            ..well
        };
        assert!(rt;
            is_answered(rt.alloc(), "run a.sql", &around, 5, &text[..room])?,
            "{room}"
        );
    }
    Ok(())
}

#[test]
fn a_script_is_text(rt: HostRuntime) -> Result<(), Fail> {
    for (at, text) in NO_TEXT.iter().enumerate() {
        let mut script = *b"COMMIT;";
        script[at] = 0xff;
        let around = over(&[0], &script);
        assert!(rt;
            is_answered(rt.alloc(), "run a.sql", &around, 8, text.as_bytes())?,
            "{at}"
        );
    }
    Ok(())
}

/// A fault's text goes out in five writes, and keeps its status where one of them fails.
#[test]
fn a_fault_keeps_its_status(rt: HostRuntime) -> Result<(), Fail> {
    let well = over(&[0], b"SE\xff");
    for (at, text) in [
        "",
        "watsql: script ",
        "watsql: script 1",
        "watsql: script 1 is not text at ",
        "watsql: script 1 is not text at 2",
    ]
    .iter()
    .enumerate()
    {
        let around = Around {
            write: Some(at as u64),
            ..well
        };
        assert!(rt;
            is_answered(rt.alloc(), "run a.sql", &around, 8, text.as_bytes())?,
            "{at}"
        );
    }
    Ok(())
}

#[test]
fn a_broken_log_is_damaged_at_its_gate(rt: HostRuntime) -> Result<(), Fail> {
    let mut second_gate = FIRST_LOG;
    second_gate[120] = 0xa5;
    let logs: [(&[u8], &str); 6] = [
        (&[0xa5], "watsql: damaged log at 0\n"),
        (&[0xa5, 0, 0, 0, 0, 0], "watsql: damaged log at 0\n"),
        (
            &[0xa5, 0, 0x1e, 0x84, 0x81, 0],
            "watsql: damaged log at 0\n",
        ),
        (&[0xa5, 0, 0, 0, 1, 0xaa], "watsql: damaged log at 0\n"),
        (&[0xa5, 0, 0, 0, 1, 0xaa, 0], "watsql: damaged log at 0\n"),
        (&second_gate, "watsql: damaged log at 120\n"),
    ];
    for (log, text) in logs {
        let around = over(log, FIRST.as_bytes());
        assert!(rt;
            is_logged(rt.alloc(), "run a.sql", &around, 3, text.as_bytes(), log)?,
            "{text}"
        );
    }
    Ok(())
}
