ghost use Rattle.std.specs.Prelude.{◌≡◌, ◌≢◌, ◌≤◌, ◌++◌, [], ◌∷◌, All, ◌↔◌, IsTrue, OnOk, OnErr, IfOk, length, map, if◌then◌else◌};
ghost use Rattle.std.specs.List.{AllByRecursion};
ghost use Rattle.wat_disk.specs.Disk.{IsSynced, InFile, SameOthers, EachStop, MakesAtMost, MakesCalls};
ghost use Rattle.wat_faults.specs.Faults.{HasCause};
ghost use Rattle.wat_gate.specs.Bodies.{KeepsOrAdds};
ghost use Rattle.wat_gate.specs.GateLog.{file_of, bodies_in, IsLogOf};
ghost use Rattle.wat_log_record.specs.Encoding.{record_bytes, IsEncodableRecord, IsWritableChange};
ghost use Rattle.wat_commit_log.specs.Logged.{IsFramed, OfRows, body_of, changed};
ghost use Rattle.wat_commit_log.specs.Pending.{changes_bytes, changes_in, fit, IsWritableAct};
ghost use Rattle.wat_commit_log.specs.declared.saving.SaveRefusal.TheVariants.{DiskFault, Memory};

use crate::saving::{SaveRefusal, append};
use std::alloc::Global;
use std::marker::Model;
use wat_disk::Disk;
use wat_gate::{Frame, GateLog};
use wat_list::{Copied, Items, NoMemory, Reserved};
use wat_record::{LogRecord, push_changed};
use wat_value::{Act, Change};

/// The records of the changes take at most so many bytes, so that a frame takes the Commit too.
const MOST_BYTES: usize = 1999997;

/// Room for the record of a short row.
const ROW_BYTES: usize = 64;

/// The number of the connection, which is the only one.
pub(crate) const CONNECTION: u16 = 1;

/// The changes of the open transaction, in the order in which they were made. Their records stand ready for the log.
#[derive(Drop)]
pub struct Pending {
    changes: Reserved<Change>,
    frame: Frame,
}

impl Model for Pending {
    ghost use Rattle.std.specs.Prelude.{List};
    ghost use Rattle.wat_value.specs.declared.change.Change.{Change as AnyChange};
    ghost use Rattle.wat_commit_log.specs.Pending.{AreBytes};

    ghost Value = { List AnyChange };

    ghost view = { λ p. p.changes.items };

    ghost invariant = { λ p. AreBytes p.changes.items p.frame.body };
}

// Adds a copy of the change, and the bytes of its record.
fn note(
    alloc: Global,
    change: &Change,
    changes: &mut Vec<Change>,
    bytes: &mut Vec<u8>,
) -> Result<(), NoMemory>
    requires { IsWritableChange change.now }
    ensures change { OnOk result (changes.new.items ≡ changes.old.items ++ change.now ∷ []) }
    ensures bytes { OnOk result (bytes.new.items ≡ bytes.old.items ++ record_bytes (changed change.now)) }
    ensures encodable { OnOk result (IsEncodableRecord (changed change.now)) }
{
    push_changed(CONNECTION, change, bytes)?;
    changes.push(change.copy(alloc)?)?;
    Ok(())
}

// Copies of the changes among the acts, and the bytes of their records.
fn note_all(alloc: Global, acts: &[Act], bytes: &mut Vec<u8>) -> Result<Vec<Change>, NoMemory>
    requires none { bytes.old.items ≡ [] }
    requires writable { All IsWritableAct acts.now }
    ensures changes { IfOk result (λ changes. changes.items ≡ changes_in acts.now) }
    ensures bytes { OnOk result (bytes.new.items ≡ changes_bytes (changes_in acts.now)) }
    ensures encodable { OnOk result (AllByRecursion IsEncodableRecord (map changed (changes_in acts.now))) }
{
    let mut changes = Vec::with_capacity(alloc, acts.len())?;
    for act in acts {
        match act {
            Act::OnRow(change) => note(alloc, change, &mut changes, bytes)?,
            Act::OnSchema(_) => {}
        }
    }
    Ok(changes)
}

// Moves the changes behind those that are there, in the room for them.
fn move_all(more: Vec<Change>, changes: &mut Reserved<Change>)
    requires { length more.items ≤ changes.old.spare }
    ensures { changes.new.items ≡ changes.old.items ++ more.items }
{
    for change in more {
        changes.push(change);
    }
}

impl Pending {
    /// No changes yet.
    pub fn new(alloc: Global) -> Result<Self, NoMemory>
        ensures { IfOk result (λ pending. pending ≡ []) }
    {
        let frame = Frame::new(alloc)?;
        Ok(Pending {
            changes: Reserved::new(alloc),
            frame,
        })
    }

    pub fn as_slice(&self) -> &[Change]
        ensures { result.now ≡ self.now }
    {
        self.changes.as_slice()
    }

    pub fn is_empty(&self) -> bool
        ensures { IsTrue result ↔ (self.now ≡ []) }
    {
        self.changes.is_empty()
    }

    /// The changes alone.
    pub fn into_changes(self) -> Items<Change>
        ensures { result ≡ self }
    {
        let Pending { changes, frame: _ } = self;
        changes.into_items()
    }

    /// Adds the changes of rows among the acts, and answers whether they fit: whether the records of all changes take at
    /// most 1,999,997 bytes. Where they don't fit, none is added.
    pub fn add(&mut self, alloc: Global, acts: &[Act]) -> Result<bool, NoMemory>
        requires { All IsWritableAct acts.now }
        ensures fit { IfOk result (λ added. added ≡ fit (self.old ++ changes_in acts.now)) }
        ensures added { IfOk result (λ added. self.new ≡ (if added then self.old ++ changes_in acts.now else self.old)) }
        ensures err { OnErr result (self.new ≡ self.old) }
    {
        let mut bytes = Vec::with_capacity(alloc, ROW_BYTES)?;
        let more = note_all(alloc, acts, &mut bytes)?;
        if bytes.len() > MOST_BYTES - self.frame.len() {
            return Ok(false);
        }
        self.changes.reserve(more.len())?;
        self.frame.push(&bytes)?;
        move_all(more, &mut self.changes);
        Ok(true)
    }

    /// Adds a frame of the changes and a Commit to the log. At `Ok` it is on the disk. All memory is taken before the first
    /// call on the disk; a log that would not end below 2^64 wants memory too.
    pub fn save<D: Disk>(
        self,
        alloc: Global,
        log: &mut GateLog,
        disk: &mut D,
    ) -> Result<(), SaveRefusal>
        requires known { D.tells_content → IsLogOf (D.told disk.old) log.old }
        requires some { self ≢ [] }

        ensures known { D.tells_content → OnOk result (IsLogOf (D.told disk.new) log.new) }
        ensures added { D.tells_content → OnOk result (bodies_in (D.told disk.new) log.new ≡ bodies_in (D.told disk.old) log.old ++ body_of (OfRows self) ∷ []) }
        ensures framed { IsFramed (OfRows self) }
        ensures synced { OnOk result (IsSynced (D.told disk.new) (file_of log.new)) }
        ensures file { file_of log.new ≡ file_of log.old }
        ensures others { SameOthers (file_of log.old) (D.told disk.old).content (D.told disk.new).content }
        ensures stops { D.tells_content → IsSynced (D.told disk.old) (file_of log.old)
            → EachStop (D.told disk.old) (D.told disk.new) (InFile (file_of log.old) (KeepsOrAdds (body_of (OfRows self)))) }
        ensures calls { OnOk result (MakesCalls 4 (D.told disk.old) (D.told disk.new)) }
        ensures calls_at_most { MakesAtMost 4 (D.told disk.old) (D.told disk.new) }
        ensures cause { HasCause (D.told disk.old).faults (D.told disk.new).faults (result ≡ Err SaveRefusal.DiskFault) }
        ensures memory { result ≡ Err SaveRefusal.Memory → disk.new ≡ disk.old }
    {
        let Pending { changes: _, frame } = self;
        let record = LogRecord::Commit { conn: CONNECTION };
        append(alloc, &record, frame, log, disk)
    }
}
