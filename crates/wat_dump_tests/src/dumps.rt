// What scripts leave is written as SQL.
use std::alloc::Global;
use std::test::Fail;
use wat_dump::dump;
use wat_schema::Schema;
use wat_serial::run_script;
use wat_tables::Tables;

// The tables after the script, run over none.
fn tables_after(alloc: Global, script: &str) -> Result<Tables, Fail> {
    if script.len() > 16777216 {
        return Err(Fail::from("the script is too long"));
    }
    let none = Tables::of(alloc, &Schema::new(alloc))?;
    match run_script(alloc, script, none) {
        Ok(tables) => Ok(tables),
        Err(_) => Err(Fail::from("the script is refused")),
    }
}

// What they are written as.
fn dump_after(alloc: Global, script: &str) -> Result<String, Fail> {
    let tables = tables_after(alloc, script)?;
    let text = dump(alloc, &tables)?;
    match String::from_utf8(text) {
        Ok(text) => Ok(text),
        Err(_) => Err(Fail::from("the text is no text")),
    }
}

// Whether they are written as this text, and the tables that the text makes as the same one.
fn is_dumped(alloc: Global, script: &str, text: &str) -> Result<bool, Fail> {
    let first = dump_after(alloc, script)?;
    let second = dump_after(alloc, first.as_str())?;
    Ok(first.as_str() == text && second.as_str() == text)
}

#[test]
fn rows_are_written_in_the_order_of_their_keys(rt: HostRuntime) -> Result<(), Fail> {
    let alloc = rt.alloc();
    for (script, text) in [
        ("", ""),
        // Quotes are doubled, letters that are no ASCII stay, and numbers below zero have their minus.
        (
            "CREATE TABLE n (k INTEGER PRIMARY KEY, s VARCHAR(40)); INSERT INTO n VALUES (2147483647, NULL); INSERT INTO n VALUES (0, 'Zürich – 東京; --'); INSERT INTO n VALUES (-1, 'it''s ''so'''); INSERT INTO n VALUES (-2147483648, ''''); COMMIT;",
            "CREATE TABLE n (k INTEGER NOT NULL, s VARCHAR(40), PRIMARY KEY (k));\nINSERT INTO n VALUES (-2147483648, '''');\nINSERT INTO n VALUES (-1, 'it''s ''so''');\nINSERT INTO n VALUES (0, 'Zürich – 東京; --');\nINSERT INTO n VALUES (2147483647, NULL);\nCOMMIT;\n",
        ),
        // The columns of a key stand in the order of the key, and rows in its order too.
        (
            "CREATE TABLE w (a INTEGER, b VARCHAR(5) NOT NULL, c INTEGER NOT NULL, PRIMARY KEY (c, b)); INSERT INTO w VALUES (1, 'x', 2); INSERT INTO w VALUES (2, 'y', 1); INSERT INTO w VALUES (3, 'x', 1);",
            "CREATE TABLE w (a INTEGER, b VARCHAR(5) NOT NULL, c INTEGER NOT NULL, PRIMARY KEY (c, b));\nINSERT INTO w VALUES (3, 'x', 1);\nINSERT INTO w VALUES (2, 'y', 1);\nINSERT INTO w VALUES (1, 'x', 2);\nCOMMIT;\n",
        ),
    ] {
        assert!(rt; is_dumped(alloc, script, text)?, "{script}");
    }
    Ok(())
}

#[test]
fn each_table_stands_with_its_indexes(rt: HostRuntime) -> Result<(), Fail> {
    let alloc = rt.alloc();
    for (script, text) in [
        // A table without rows has no COMMIT, and a dropped one is not there.
        (
            "CREATE TABLE gone (k INTEGER PRIMARY KEY); CREATE TABLE b (k CHAR(3) PRIMARY KEY); CREATE TABLE a (k INTEGER PRIMARY KEY, v INTEGER NOT NULL); INSERT INTO a VALUES (1, 10); DROP TABLE gone; CREATE TABLE gone (s VARCHAR(9), PRIMARY KEY (k), k INTEGER NOT NULL);",
            "CREATE TABLE b (k CHAR(3) NOT NULL, PRIMARY KEY (k));\nCREATE TABLE a (k INTEGER NOT NULL, v INTEGER NOT NULL, PRIMARY KEY (k));\nINSERT INTO a VALUES (1, 10);\nCOMMIT;\nCREATE TABLE gone (s VARCHAR(9), k INTEGER NOT NULL, PRIMARY KEY (k));\n",
        ),
        // Indexes stand behind their own tables, by number, with their columns in their order.
        (
            "CREATE TABLE t (k INTEGER PRIMARY KEY, v INTEGER NOT NULL, w INTEGER NOT NULL); CREATE TABLE u (k INTEGER PRIMARY KEY); CREATE INDEX z ON t (w, k); CREATE INDEX of_u ON u (k); INSERT INTO t VALUES (1, 2, 3); CREATE INDEX a ON t (v);",
            "CREATE TABLE t (k INTEGER NOT NULL, v INTEGER NOT NULL, w INTEGER NOT NULL, PRIMARY KEY (k));\nCREATE INDEX z ON t (w, k);\nCREATE INDEX a ON t (v);\nINSERT INTO t VALUES (1, 2, 3);\nCOMMIT;\nCREATE TABLE u (k INTEGER NOT NULL, PRIMARY KEY (k));\nCREATE INDEX of_u ON u (k);\n",
        ),
    ] {
        assert!(rt; is_dumped(alloc, script, text)?, "{script}");
    }
    Ok(())
}
