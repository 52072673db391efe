// The calls of the tests, and what they commit.
use crate::calls::{Call, Played};
use crate::seen::Seen;

// Two connections change one table. Of each some changes are undone, those of connection 2 across the checkpoint; a second table
// is made; and connection 1 ends with a change that isn't committed.
pub const CALLS: [Call; 20] = [
    Call::Create { table: 1 },
    Call::Insert {
        conn: 1,
        table: 1,
        key: 1,
        value: 10,
    },
    Call::Insert {
        conn: 2,
        table: 1,
        key: 2,
        value: 20,
    },
    Call::Insert {
        conn: 1,
        table: 1,
        key: 3,
        value: 30,
    },
    Call::UndoTo { conn: 1, count: 1 },
    Call::Commit { conn: 1 },
    Call::Update {
        conn: 2,
        key: 2,
        from: 20,
        to: 21,
    },
    Call::Insert {
        conn: 1,
        table: 1,
        key: 4,
        value: 40,
    },
    Call::Checkpoint,
    Call::UndoTo { conn: 2, count: 1 },
    Call::Delete {
        conn: 1,
        key: 1,
        value: 10,
    },
    Call::UndoTo { conn: 1, count: 1 },
    Call::Commit { conn: 2 },
    Call::Update {
        conn: 2,
        key: 1,
        from: 10,
        to: 11,
    },
    Call::Commit { conn: 1 },
    Call::Rollback { conn: 2 },
    Call::Create { table: 2 },
    Call::Insert {
        conn: 2,
        table: 2,
        key: 1,
        value: 50,
    },
    Call::Commit { conn: 2 },
    Call::Delete {
        conn: 1,
        key: 4,
        value: 40,
    },
];

// Behind so many calls there is a database, or something is committed.
pub const COMMITS: [usize; 7] = [0, 1, 6, 13, 15, 17, 19];

fn state(tables: usize, rows: usize, values: [i64; 6]) -> Option<Seen> {
    Some(Seen {
        tables,
        rows,
        values,
    })
}

// No database; one without tables; and what each of these leaves.
fn states() -> [Option<Seen>; 8] {
    [
        None,
        state(0, 0, [0, 0, 0, 0, 0, 0]),
        state(1, 0, [0, 0, 0, 0, 0, 0]),
        state(1, 1, [10, 0, 0, 0, 0, 0]),
        state(1, 2, [10, 20, 0, 0, 0, 0]),
        state(1, 3, [10, 20, 0, 40, 0, 0]),
        state(2, 3, [10, 20, 0, 40, 0, 0]),
        state(2, 4, [10, 20, 0, 40, 50, 0]),
    ]
}

// How many of the states have come, where these calls were answered.
pub fn reached(played: Option<Played>) -> usize {
    match played {
        Some(played) => COMMITS
            .iter()
            .filter(|calls| **calls <= played.answered)
            .count(),
        None => 0,
    }
}

// Whether this is the state that was reached, or the next one.
pub fn is_left(seen: Option<Seen>, reached: usize) -> bool {
    states()
        .iter()
        .skip(reached)
        .take(2)
        .any(|state| *state == seen)
}
