// The store: it owns its disk, what the database has on the pages of the disk, and the log.
ghost use Rattle.std.specs.Prelude.{◌≡◌, ◌≢◌, ◌↔◌, ◌<◌, ◌≤◌, ◌^◌, [], ℕ, Some, None, true, length, IsErr, IsSome, IfOk, IfErr, OnOk};
ghost use Rattle.std.proofs.Props.{props};
ghost use Rattle.wat_faults.specs.Faults.{HasCause};
ghost use Rattle.wat_gate.specs.Bodies.{bodies};
ghost use Rattle.wat_value.specs.Order.{key_cmp};
ghost use Rattle.wat_list.specs.Has.{Has};
ghost use Rattle.wat_list.specs.Rising.{rising};
ghost use Rattle.wat_images.specs.Refusal.{IfDamaged, IfPageLimit};
ghost use Rattle.wat_images.specs.declared.refusal.PageRefusal.{PageRefusal as AnyRefusal};
ghost use Rattle.wat_schema.specs.Tables.{Tables, Row as AnyRow, catalog_of, row_at};
ghost use Rattle.wat_log_record.specs.Encoding.{record_bytes, IsWritableChange, IsWritableSchema};
ghost use Rattle.wat_log_record.specs.declared.log_record.LogRecord.TheVariants as entry;
ghost use Rattle.wat_log.specs.Log.{noted_bytes};
ghost use Rattle.wat_replay.specs.State.{State, undone};
ghost use Rattle.wat_replay.specs.Replay.{Applies};
ghost use Rattle.wat_store.specs.Parts.{AreOpen, HoldsSafe, IsStore};

use crate::changes::{alter_schema, commit_list, roll_back, undo_list};
use crate::saving::save_all;
use crate::steps::make_change;
use wat_disk::{Disk, DiskFault};
use wat_list::NoMemory;
use wat_log::Log;
use wat_objects::Objects;
use wat_pages::PageRefusal;
use wat_schema::Schema;
use wat_value::{Change, Key, Keys, Row, SchemaChange};

/// Why a call of a store gave up.
pub type StoreRefusal = PageRefusal;

/// A database on its disk, for any number of connections.
///
/// After a refusal, but one of `reserve` or `keys`, the files are opened again. Each later call that changes or syncs answers
/// the same refusal, and makes no call of the disk.
pub struct Store<D: Disk> {
    disk: D,
    objects: Objects,
    log: Log,
    refused: Option<PageRefusal>,
    ghost known: { D.tells_content → refused ≡ None → AreOpen (D.told disk) objects log } by { Prim.hlevel props },
    ghost buffered: { refused ≡ None → length (noted_bytes log) ≤ 1048576 },
}

impl<D: Disk> Store<D> {
    ghost use Rattle.wat_store.specs.Store.{disk_of, told_of, objects_of, refusal_of, limit_in, schema_in, undo_in, noted_in, room_of, IsStoreOf, HoldsIn, Stops, CountsAll};

    /// The store of a disk, what a database has on its pages, and its log.
    pub fn of(disk: D, objects: Objects, log: Log) -> Self
        requires known { D.tells_content → AreOpen (D.told disk) objects log }
        requires buffered { length (noted_bytes log) ≤ 1048576 }
        ensures going { refusal_of result ≡ None }
        ensures disk { disk_of result ≡ disk }
        ensures objects { objects_of result ≡ objects }
        ensures noted { noted_in result ≡ noted_bytes log }
        ensures stands { (s : State) (t : Tables) → IsStore (D.told disk) objects log s t → IsStoreOf result s t }
        ensures holds { (s : State) → HoldsSafe (D.told disk) objects s → HoldsIn result s }
    {
        Store {
            disk,
            objects,
            log,
            refused: None,
        }
    }

    /// The schema now.
    pub fn schema(&self) -> &Schema
        ensures is { result.now ≡ schema_in self.now }
        ensures schema { (s : State) (t : Tables) → IsStoreOf self.now s t → result.now ≡ catalog_of s.tables }
    {
        self.objects.schema()
    }

    /// The primary keys of the rows that the table has now, ascending; none where there is no such table.
    pub fn keys(&self, table: u32) -> Result<Keys, NoMemory>
        ensures order { IfOk result (λ keys. rising key_cmp keys ≡ true) }
        ensures all { (s : State) (t : Tables) → IsStoreOf self.now s t → IfOk result (λ keys. (key : AnyRow) → Has key keys ↔ IsSome (row_at s.tables table key)) }
    {
        self.objects.keys(table)
    }

    /// The row of the table with that primary key.
    pub fn row(&mut self, table: u32, key: &Key) -> Result<Option<Row>, StoreRefusal>
        ensures row { D.tells_content → (s : State) (t : Tables) → IsStoreOf self.old s t → IfOk result (λ row. row ≡ row_at s.tables table key.now) }
        ensures stands { D.tells_content → (s : State) (t : Tables) → IsStoreOf self.old s t → OnOk result (IsStoreOf self.new s t) }
        ensures stops { D.tells_content → (s : State) (t : Tables) → IsStoreOf self.old s t → Stops self.old self.new t t }
        ensures limit { D.tells_content → limit_in self.new ≡ limit_in self.old }
        ensures undamaged { D.tells_content → (s : State) (t : Tables) → IsStoreOf self.old s t → IfErr result (λ refusal. IfDamaged refusal (λ file at. ⊥)) }
        ensures limited { refusal_of self.old ≡ None → IfErr result (λ refusal. IfPageLimit refusal (λ count limit. ⊥)) }

        // On a store that has refused, the same refusal, with no call of the disk.
        ensures refused { (refusal : AnyRefusal) → refusal_of self.old ≡ Some refusal → (result ≡ Err refusal) × (self.new ≡ self.old) }
        ensures refuses { refusal_of self.old ≡ None → IfErr result (λ refusal. refusal_of self.new ≡ Some refusal) }
        ensures cause { refusal_of self.old ≡ None → HasCause (told_of self.old).faults (told_of self.new).faults (result ≡ Err PageRefusal.DiskFault) }
    {
        if let Some(refusal) = self.refused {
            return Err(refusal);
        }
        match self.objects.row(&mut self.disk, table, key) {
            Ok(row) => Ok(row),
            Err(refusal) => {
                self.refused = Some(refusal);
                Err(refusal)
            }
        }
    }

    /// Makes a change of a connection. It applies, and no other connection has a change of its row. A page is taken for an insert or
    /// an update alone, within the page limit.
    pub fn change(&mut self, conn: u16, change: Change) -> Result<(), StoreRefusal>
        requires writable { IsWritableChange change }
        requires short { length (record_bytes (entry.Changed conn change)) ≤ 900000 }

        ensures changed { D.tells_content → (s next : State) (t : Tables) → IsStoreOf self.old s t → Applies (entry.Changed conn change) s next → OnOk result (IsStoreOf self.new next t) }
        ensures stops { D.tells_content → (s next : State) (t : Tables) → IsStoreOf self.old s t → Applies (entry.Changed conn change) s next → Stops self.old self.new t t }
        ensures limit { D.tells_content → limit_in self.new ≡ limit_in self.old }
        ensures undamaged { D.tells_content → (s next : State) (t : Tables) → IsStoreOf self.old s t → Applies (entry.Changed conn change) s next → IfErr result (λ refusal. IfDamaged refusal (λ file at. ⊥)) }
        ensures limited { refusal_of self.old ≡ None → IfErr result (λ refusal. IfPageLimit refusal (λ count limit. (limit ≡ limit_in self.old) × (limit ≤ count))) }

        // On a store that has refused, the same refusal, with no call of the disk.
        ensures refused { (refusal : AnyRefusal) → refusal_of self.old ≡ Some refusal → (result ≡ Err refusal) × (self.new ≡ self.old) }
        ensures refuses { refusal_of self.old ≡ None → IfErr result (λ refusal. refusal_of self.new ≡ Some refusal) }
        ensures cause { refusal_of self.old ≡ None → HasCause (told_of self.old).faults (told_of self.new).faults (result ≡ Err PageRefusal.DiskFault) }
    {
        if let Some(refusal) = self.refused {
            return Err(refusal);
        }
        match make_change(
            &mut self.disk,
            &mut self.objects,
            &mut self.log,
            conn,
            change,
        ) {
            Ok(()) => Ok(()),
            Err(refusal) => {
                self.refused = Some(refusal);
                Err(refusal)
            }
        }
    }

    /// Undoes the connection's changes, the last one first, until so many are left; it has no fewer. Nothing is noted where none is
    /// undone.
    pub fn undo_to(&mut self, conn: u16, count: u32) -> Result<(), StoreRefusal>
        ensures undone { D.tells_content → (s next : State) (t : Tables) → IsStoreOf self.old s t → Applies (entry.UndoTo conn count) s next → OnOk result (IsStoreOf self.new next t) }
        ensures stops { D.tells_content → (s next : State) (t : Tables) → IsStoreOf self.old s t → Applies (entry.UndoTo conn count) s next → Stops self.old self.new t t }
        ensures limit { D.tells_content → limit_in self.new ≡ limit_in self.old }
        ensures undamaged { D.tells_content → (s next : State) (t : Tables) → IsStoreOf self.old s t → Applies (entry.UndoTo conn count) s next → IfErr result (λ refusal. IfDamaged refusal (λ file at. ⊥)) }
        ensures limited { refusal_of self.old ≡ None → IfErr result (λ refusal. IfPageLimit refusal (λ count limit. (limit ≡ 4294967295) × (limit ≤ count))) }

        // On a store that has refused, the same refusal, with no call of the disk.
        ensures refused { (refusal : AnyRefusal) → refusal_of self.old ≡ Some refusal → (result ≡ Err refusal) × (self.new ≡ self.old) }
        ensures refuses { refusal_of self.old ≡ None → IfErr result (λ refusal. refusal_of self.new ≡ Some refusal) }
        ensures cause { refusal_of self.old ≡ None → HasCause (told_of self.old).faults (told_of self.new).faults (result ≡ Err PageRefusal.DiskFault) }
    {
        if let Some(refusal) = self.refused {
            return Err(refusal);
        }
        match undo_list(
            &mut self.disk,
            &mut self.objects,
            &mut self.log,
            conn,
            count,
        ) {
            Ok(()) => Ok(()),
            Err(refusal) => {
                self.refused = Some(refusal);
                Err(refusal)
            }
        }
    }

    /// Undoes the connection's changes. Nothing is noted where it has none.
    pub fn rollback(&mut self, conn: u16) -> Result<(), StoreRefusal>
        ensures undone { D.tells_content → (s next : State) (t : Tables) → IsStoreOf self.old s t → Applies (entry.Rollback conn) s next → OnOk result (IsStoreOf self.new next t) }
        ensures stops { D.tells_content → (s next : State) (t : Tables) → IsStoreOf self.old s t → Applies (entry.Rollback conn) s next → Stops self.old self.new t t }
        ensures limit { D.tells_content → limit_in self.new ≡ limit_in self.old }
        ensures undamaged { D.tells_content → (s next : State) (t : Tables) → IsStoreOf self.old s t → Applies (entry.Rollback conn) s next → IfErr result (λ refusal. IfDamaged refusal (λ file at. ⊥)) }
        ensures limited { refusal_of self.old ≡ None → IfErr result (λ refusal. IfPageLimit refusal (λ count limit. (limit ≡ 4294967295) × (limit ≤ count))) }

        // On a store that has refused, the same refusal, with no call of the disk.
        ensures refused { (refusal : AnyRefusal) → refusal_of self.old ≡ Some refusal → (result ≡ Err refusal) × (self.new ≡ self.old) }
        ensures refuses { refusal_of self.old ≡ None → IfErr result (λ refusal. refusal_of self.new ≡ Some refusal) }
        ensures cause { refusal_of self.old ≡ None → HasCause (told_of self.old).faults (told_of self.new).faults (result ≡ Err PageRefusal.DiskFault) }
    {
        if let Some(refusal) = self.refused {
            return Err(refusal);
        }
        match roll_back(&mut self.disk, &mut self.objects, &mut self.log, conn) {
            Ok(()) => Ok(()),
            Err(refusal) => {
                self.refused = Some(refusal);
                Err(refusal)
            }
        }
    }

    /// Makes a change of the schema that is allowed, while no connection has changes. At `Ok` each later stop leaves it.
    pub fn alter(&mut self, change: SchemaChange) -> Result<(), StoreRefusal>
        requires writable { IsWritableSchema change }
        requires short { length (record_bytes (entry.Schema change)) ≤ 900000 }

        ensures altered { D.tells_content → (s next : State) (t after : Tables) → IsStoreOf self.old s t → Applies (entry.Schema change) s next → undone next ≡ Some after → OnOk result (IsStoreOf self.new next after) }
        ensures stops { D.tells_content → (s next : State) (t after : Tables) → IsStoreOf self.old s t → Applies (entry.Schema change) s next → undone next ≡ Some after → Stops self.old self.new t after }

        // After a refusal that is no fault of the disk no image has the change.
        ensures without { D.tells_content → (s next : State) (t after : Tables) → IsStoreOf self.old s t → Applies (entry.Schema change) s next → undone next ≡ Some after → IfErr result (λ refusal. refusal ≢ PageRefusal.DiskFault → Stops self.old self.new t t) }

        ensures limit { D.tells_content → limit_in self.new ≡ limit_in self.old }
        ensures undamaged { D.tells_content → (s : State) (t : Tables) → IsStoreOf self.old s t → IfErr result (λ refusal. IfDamaged refusal (λ file at. ⊥)) }
        ensures limited { refusal_of self.old ≡ None → IfErr result (λ refusal. IfPageLimit refusal (λ count limit. (limit ≡ limit_in self.old) × (limit ≤ count))) }

        // On a store that has refused, the same refusal, with no call of the disk.
        ensures refused { (refusal : AnyRefusal) → refusal_of self.old ≡ Some refusal → (result ≡ Err refusal) × (self.new ≡ self.old) }
        ensures refuses { refusal_of self.old ≡ None → IfErr result (λ refusal. refusal_of self.new ≡ Some refusal) }
        ensures cause { refusal_of self.old ≡ None → HasCause (told_of self.old).faults (told_of self.new).faults (result ≡ Err PageRefusal.DiskFault) }
    {
        if let Some(refusal) = self.refused {
            return Err(refusal);
        }
        match alter_schema(&mut self.disk, &mut self.objects, &mut self.log, change) {
            Ok(()) => Ok(()),
            Err(refusal) => {
                self.refused = Some(refusal);
                Err(refusal)
            }
        }
    }

    /// Makes the state now the checkpoint: the header counts all frames of the log, and the pages alone stand for the tables with
    /// the changes of all connections. Fewer than 65,536 connections have changes.
    pub fn checkpoint(&mut self) -> Result<(), StoreRefusal>
        requires few { length (undo_in self.old) < 2 ^ 16 }

        ensures stands { D.tells_content → (s : State) (t : Tables) → IsStoreOf self.old s t → OnOk result (IsStoreOf self.new s t) }

        // The header counts all frames of the log then, the before file has no images, and nothing is noted.
        ensures saved { D.tells_content → OnOk result (CountsAll self.new) }
        ensures none { D.tells_content → OnOk result (bodies ((told_of self.new).content 1) ≡ []) }
        ensures flushed { OnOk result (noted_in self.new ≡ []) }

        ensures stops { D.tells_content → (s : State) (t : Tables) → IsStoreOf self.old s t → Stops self.old self.new t t }
        ensures limit { D.tells_content → limit_in self.new ≡ limit_in self.old }
        ensures undamaged { D.tells_content → (s : State) (t : Tables) → IsStoreOf self.old s t → IfErr result (λ refusal. IfDamaged refusal (λ file at. ⊥)) }

        // The same of a state on pages that don't agree with the log.
        ensures holds { D.tells_content → (s : State) → HoldsIn self.old s → OnOk result (HoldsIn self.new s) }
        ensures holds_undamaged { D.tells_content → (s : State) → HoldsIn self.old s → IfErr result (λ refusal. IfDamaged refusal (λ file at. ⊥)) }

        ensures limited { refusal_of self.old ≡ None → IfErr result (λ refusal. IfPageLimit refusal (λ count limit. (limit ≡ 4294967295) × (limit ≤ count))) }

        // On a store that has refused, the same refusal, with no call of the disk.
        ensures refused { (refusal : AnyRefusal) → refusal_of self.old ≡ Some refusal → (result ≡ Err refusal) × (self.new ≡ self.old) }
        ensures refuses { refusal_of self.old ≡ None → IfErr result (λ refusal. refusal_of self.new ≡ Some refusal) }
        ensures cause { refusal_of self.old ≡ None → HasCause (told_of self.old).faults (told_of self.new).faults (result ≡ Err PageRefusal.DiskFault) }
    {
        if let Some(refusal) = self.refused {
            return Err(refusal);
        }
        match save_all(&mut self.disk, &mut self.objects, &mut self.log) {
            Ok(()) => Ok(()),
            Err(refusal) => {
                self.refused = Some(refusal);
                Err(refusal)
            }
        }
    }

    /// The refusal that it has answered, if any.
    pub fn refusal(&self) -> Option<StoreRefusal>
        ensures { result ≡ refusal_of self.now }
    {
        self.refused
    }

    /// How many connections have changes.
    pub fn open_count(&self) -> usize
        ensures { result ≡ length (undo_in self.now) }
    {
        self.objects.open_count()
    }

    /// Makes room for a commit, so that it takes no memory. The store goes on also where no memory is left.
    pub fn reserve(&mut self) -> Result<(), NoMemory>
        ensures room { OnOk result (1 ≤ room_of self.new) }
        ensures stands { (s : State) (t : Tables) → IsStoreOf self.old s t → IsStoreOf self.new s t }
        ensures refusal { refusal_of self.new ≡ refusal_of self.old }
        ensures disk { disk_of self.new ≡ disk_of self.old }
        ensures limit { limit_in self.new ≡ limit_in self.old }
    {
        self.log.reserve()
    }

    /// Commits the connection's changes. At `Ok` each later stop leaves them. It takes no memory.
    pub fn commit(&mut self, conn: u16) -> Result<(), DiskFault>
        requires going { refusal_of self.old ≡ None }
        requires room { 1 ≤ room_of self.old }

        ensures committed { D.tells_content → (s next : State) (t after : Tables) → IsStoreOf self.old s t → Applies (entry.Commit conn) s next → undone next ≡ Some after → OnOk result (IsStoreOf self.new next after) }

        // A stop at any moment leaves the committed tables from before, or those with the connection's changes.
        ensures stops { D.tells_content → (s next : State) (t after : Tables) → IsStoreOf self.old s t → Applies (entry.Commit conn) s next → undone next ≡ Some after → Stops self.old self.new t after }

        ensures limit { limit_in self.new ≡ limit_in self.old }
        ensures refuses { IsErr result → refusal_of self.new ≡ Some PageRefusal.DiskFault }
        ensures cause { HasCause (told_of self.old).faults (told_of self.new).faults (IsErr result) }
    {
        match commit_list(&mut self.disk, &mut self.objects, &mut self.log, conn) {
            Ok(()) => Ok(()),
            Err(fault) => {
                self.refused = Some(PageRefusal::DiskFault);
                Err(fault)
            }
        }
    }

    /// The disk.
    pub fn into_disk(self) -> D
        ensures { result ≡ disk_of self }
    {
        let Store {
            disk,
            objects: _,
            log: _,
            refused: _,
        } = self;
        disk
    }
}
