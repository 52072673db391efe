// Calls of a store, one after another.
ghost use Rattle.wat_log_record.specs.Encoding.{IsWritableChange, IsWritableTable};

use crate::changes::{definition, deleted, inserted, updated};
use std::alloc::{AllocError, Global};
use wat_create::{CreateRefusal, create};
use wat_disk::{Disk, DiskFault, MemoryDisk};
use wat_opening::{OpenRefusal, OpenWhy, open};
use wat_pages::PageRefusal;
use wat_record::{push_changed, push_table};
use wat_store::Store;
use wat_value::{Change, SchemaChange, TableDef};

// Why a call was refused.
#[derive(Clone, Copy, Debug, PartialEq, Eq)]
pub enum Refused {
    DiskFault,
    // Opening finds no database, or a before file that is broken at its start.
    Unmade,
    Memory,
    Other,
}

impl From<AllocError> for Refused {
    fn from(_: AllocError) -> Self {
        Refused::Memory
    }
}

impl From<DiskFault> for Refused {
    fn from(_: DiskFault) -> Self {
        Refused::DiskFault
    }
}

impl From<CreateRefusal> for Refused {
    fn from(refusal: CreateRefusal) -> Self {
        match refusal {
            CreateRefusal::DiskFault => Refused::DiskFault,
            CreateRefusal::Memory => Refused::Memory,
            CreateRefusal::Exists { .. } => Refused::Other,
        }
    }
}

impl From<PageRefusal> for Refused {
    fn from(refusal: PageRefusal) -> Self {
        match refusal {
            PageRefusal::DiskFault => Refused::DiskFault,
            PageRefusal::Memory => Refused::Memory,
            _ => Refused::Other,
        }
    }
}

impl From<OpenWhy> for Refused {
    fn from(why: OpenWhy) -> Self {
        match why {
            OpenWhy::NoDatabase => Refused::Unmade,
            OpenWhy::Damaged { file, at } => {
                if file.0 == 1 && at == 0 {
                    Refused::Unmade
                } else {
                    Refused::Other
                }
            }
            OpenWhy::DiskFault => Refused::DiskFault,
            OpenWhy::Memory => Refused::Memory,
            OpenWhy::PageLimit { .. } => Refused::Other,
        }
    }
}

#[derive(Clone, Copy, Debug)]
pub enum Call {
    Create {
        table: u32,
    },
    Insert {
        conn: u16,
        table: u32,
        key: i64,
        value: i64,
    },
    Update {
        conn: u16,
        key: i64,
        from: i64,
        to: i64,
    },
    Delete {
        conn: u16,
        key: i64,
        value: i64,
    },
    UndoTo {
        conn: u16,
        count: u32,
    },
    Rollback {
        conn: u16,
    },
    Commit {
        conn: u16,
    },
    Checkpoint,
}

fn change<D: Disk>(
    alloc: Global,
    store: &mut Store<D>,
    conn: u16,
    change: Change,
) -> Result<(), Refused>
    requires { IsWritableChange change }
{
    let mut bytes = Vec::new(alloc);
    push_changed(conn, &change, &mut bytes)?;
    if bytes.len() > 900_000 {
        return Err(Refused::Other);
    }
    store.change(conn, change)?;
    Ok(())
}

fn create_table<D: Disk>(alloc: Global, store: &mut Store<D>, def: TableDef) -> Result<(), Refused>
    requires { IsWritableTable def }
{
    let mut bytes = Vec::new(alloc);
    push_table(&def, &mut bytes)?;
    if bytes.len() > 899_000 {
        return Err(Refused::Other);
    }
    store.alter(SchemaChange::CreateTable(def))?;
    Ok(())
}

fn commit<D: Disk>(store: &mut Store<D>, conn: u16) -> Result<(), Refused> {
    store.reserve()?;
    if let Some(refusal) = store.refusal() {
        return Err(Refused::from(refusal));
    }
    store.commit(conn)?;
    Ok(())
}

fn checkpoint<D: Disk>(store: &mut Store<D>) -> Result<(), Refused> {
    if store.open_count() > 65_535 {
        return Err(Refused::Other);
    }
    store.checkpoint()?;
    Ok(())
}

pub fn take<D: Disk>(alloc: Global, store: &mut Store<D>, call: Call) -> Result<(), Refused> {
    match call {
        Call::Create { table: 1 } => create_table(alloc, store, definition(alloc, 1, "t")?),
        Call::Create { table } => create_table(alloc, store, definition(alloc, table, "u")?),
        Call::Insert {
            conn,
            table,
            key,
            value,
        } => { change(alloc, store, conn, inserted(alloc, table, key, value)?) }
        Call::Update {
            conn,
            key,
            from,
            to,
        } => { change(alloc, store, conn, updated(alloc, key, from, to)?) }
        Call::Delete { conn, key, value } => change(
            alloc,
            store,
            conn,
            deleted(alloc, key, value)?,
        ),
        Call::UndoTo { conn, count } => {
            store.undo_to(conn, count)?;
            Ok(())
        }
        Call::Rollback { conn } => {
            store.rollback(conn)?;
            Ok(())
        }
        Call::Commit { conn } => commit(store, conn),
        Call::Checkpoint => checkpoint(store),
    }
}

// How many of the calls were answered, and why the next one was not.
#[derive(Clone, Copy, Debug, PartialEq, Eq)]
pub struct Played {
    pub answered: usize,
    pub refused: Option<Refused>,
}

fn take_all<D: Disk>(alloc: Global, store: &mut Store<D>, calls: &[Call]) -> Played {
    let mut answered: usize = 0;
    for call in calls {
        if let Err(refused) = take(alloc, store, *call) {
            return Played {
                answered,
                refused: Some(refused),
            };
        }
        answered = answered.saturating_add(1);
    }
    Played {
        answered,
        refused: None,
    }
}

// Opens the database and makes the calls.
pub fn play(alloc: Global, disk: MemoryDisk, calls: &[Call]) -> (MemoryDisk, Played) {
    match open(alloc, disk) {
        Ok(store) => {
            let mut store = store;
            let played = take_all(alloc, &mut store, calls);
            (store.into_disk(), played)
        }
        Err(OpenRefusal { why, disk }) => (
            disk,
            Played {
                answered: 0,
                refused: Some(Refused::from(why)),
            },
        ),
    }
}

// Makes a database on a disk whose calls at these moments fail, opens it, and makes the calls.
pub fn make_and_play(
    alloc: Global,
    fails: &[u64],
    calls: &[Call],
) -> Result<(MemoryDisk, Option<Played>), AllocError> {
    let mut disk = MemoryDisk::new(alloc, Vec::new(alloc), 80_000, fails.to_vec(alloc)?)?;
    match create(alloc, &mut disk, 20) {
        Ok(()) => {
            let (disk, played) = play(alloc, disk, calls);
            Ok((disk, Some(played)))
        }
        Err(_) => Ok((disk, None)),
    }
}
