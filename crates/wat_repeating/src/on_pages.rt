// The objects of a database with their disk, as what records are made on.
ghost use Rattle.std.specs.Prelude.{◌≡◌, ◌≢◌, ◌↔◌, ◌<◌, ◌+◌, Some, None, Err, IfOk, IfErr, IfSome, IfNone, OnOk};
ghost use Rattle.std.proofs.Props.{props};
ghost use Rattle.wat_faults.specs.Faults.{HasCause};
ghost use Rattle.wat_gate.specs.GateLog.{IsGateOf, body_at};
ghost use Rattle.wat_images.specs.Refusal.{IfDamaged, IfPageLimit};
ghost use Rattle.wat_gate.specs.Refusal.{IfDamaged as IfBroken};
ghost use Rattle.wat_disk.specs.Disk.{SameFiles};
ghost use Rattle.wat_pages.specs.Pages.{IsPagesOf};
ghost use Rattle.wat_log.specs.Log.{IsOpenLog, gate_of, log_frames};
ghost use Rattle.wat_log.specs.Reading.{AddsRecords, SpellsNone};
ghost use Rattle.wat_replay.specs.State.{State};
ghost use Rattle.wat_objects.specs.Objects.{pages_of};

use wat_disk::{Disk, FileId};
use wat_gate::{GatePlace, GateRefusal};
use wat_log::Log;
use wat_log_record::LogRecords;
use wat_objects::Objects;
use wat_pages::{PageRefusal, Within};
use wat_recover::{Target, TargetError};
use wat_schema::Schema;
use wat_value::{Change, Key, Row, SchemaChange};

/// The objects of a database with their disk, for the records of its log to be made on.
///
/// After the first refusal it makes no call of the disk any more. Where that one tells damage, the later calls do nothing and
/// answer as if all were well: who makes records asks for the refusal behind each of them. Contracts say that no damage is met on
/// pages that hold a state.
pub struct OnPages<D: Disk> {
    disk: D,
    objects: Objects,
    refused: Option<PageRefusal>,
    ghost known: { D.tells_content → refused ≡ None → IsPagesOf (D.told disk) (pages_of objects) } by { Prim.hlevel props },
}

/// A refusal of the log, as one of its file.
fn of_log(refusal: GateRefusal) -> PageRefusal
    ensures fault { (result ≡ PageRefusal.DiskFault) ↔ (refusal ≡ GateRefusal.DiskFault) }
    ensures damage { IfBroken refusal (λ at. ⊥) → IfDamaged result (λ file at. ⊥) }
    ensures limited { IfPageLimit result (λ count limit. ⊥) }
{
    match refusal {
        GateRefusal::DiskFault => PageRefusal::DiskFault,
        GateRefusal::Damaged { at } => PageRefusal::Damaged {
            file: FileId(2),
            at,
        },
        GateRefusal::Memory => PageRefusal::Memory,
    }
}

/// What a call answers that has met this refusal.
fn gives(refusal: PageRefusal) -> Result<(), TargetError>
    ensures fault { (result ≡ Err TargetError.Failed) ↔ (refusal ≡ PageRefusal.DiskFault) }
    ensures damage { OnOk result (IfDamaged refusal (λ file at. ⊥) → ⊥) }
{
    match refusal {
        PageRefusal::DiskFault => Err(TargetError::Failed),
        PageRefusal::Damaged { .. } => Ok(()),
        PageRefusal::PageLimit { .. } => Err(TargetError::Memory),
        PageRefusal::Memory => Err(TargetError::Memory),
    }
}

/// What a later call answers.
fn rests(refusal: PageRefusal) -> Result<(), TargetError>
    ensures { result ≢ Err TargetError.Failed }
{
    match refusal {
        PageRefusal::Damaged { .. } => Ok(()),
        _ => Err(TargetError::Memory),
    }
}

impl<D: Disk> OnPages<D> {
    ghost use Rattle.wat_repeating.specs.OnPages.{disk_of, told_of, objects_of, refusal_of, Stands, Moves};

    pub fn new(disk: D, objects: Objects) -> Self
        requires known { D.tells_content → IsPagesOf (D.told disk) (pages_of objects) }
        ensures disk { disk_of result ≡ disk }
        ensures objects { objects_of result ≡ objects }
        ensures going { refusal_of result ≡ None }
    {
        OnPages {
            disk,
            objects,
            refused: None,
        }
    }

    /// The first refusal of a call.
    pub fn refusal(&self) -> Option<PageRefusal>
        ensures { result ≡ refusal_of self.now }
    {
        self.refused
    }

    pub fn objects(&self) -> &Objects
        ensures { result.now ≡ objects_of self.now }
    {
        &self.objects
    }

    /// The disk and the objects.
    pub fn into_parts(self) -> (D, Objects)
        ensures disk { result.0 ≡ disk_of self }
        ensures objects { result.1 ≡ objects_of self }
    {
        let OnPages {
            disk,
            objects,
            refused: _,
        } = self;
        (disk, objects)
    }

    /// Why a call gave up, as it answered this.
    pub(crate) fn cause(&self, error: TargetError) -> PageRefusal
        ensures fault { (result ≡ PageRefusal.DiskFault) ↔ (error ≡ TargetError.Failed) }
        ensures damage { IfDamaged result (λ file at. ⊥) }
        ensures limited { IfPageLimit result (λ count limit. refusal_of self.now ≡ Some (PageRefusal.PageLimit count limit)) }
    {
        match error {
            TargetError::Failed => PageRefusal::DiskFault,
            TargetError::Memory => match self.refused {
                Some(PageRefusal::PageLimit { count, limit }) => {
                    PageRefusal::PageLimit { count, limit }
                }
                _ => PageRefusal::Memory,
            },
        }
    }

    /// Adds the records of the frame at a gate of the log to `into`, and answers the next gate; `None` where the frame's body spells
    /// no records.
    pub(crate) fn read_frame(
        &mut self,
        log: &Log,
        place: GatePlace,
        into: &mut LogRecords,
    ) -> Result<Option<GatePlace>, PageRefusal>
        requires log { D.tells_content → IsOpenLog (told_of self.old) log.now }
        requires place { D.tells_content → IsGateOf (told_of self.old) (gate_of log.now) place }
        requires frame { place.gate < log_frames log.now }

        ensures read { D.tells_content → IfOk result (λ next. IfSome next (λ gate. AddsRecords (body_at (told_of self.old) (gate_of log.now) place.gate) into.old into.new)) }
        ensures none { D.tells_content → IfOk result (λ next. IfNone next (SpellsNone (body_at (told_of self.old) (gate_of log.now) place.gate))) }
        ensures next { D.tells_content → IfOk result (λ next. IfSome next (IsGateOf (told_of self.new) (gate_of log.now))) }
        ensures one_more { IfOk result (λ next. IfSome next (λ gate. gate.gate ≡ place.gate + 1)) }
        ensures content { SameFiles (told_of self.old).content (told_of self.new).content }
        ensures stands { (s : State) → Stands self.old s → Stands self.new s }
        ensures undamaged { D.tells_content → IfErr result (λ refusal. IfDamaged refusal (λ file at. ⊥)) }
        ensures limited { IfErr result (λ refusal. IfPageLimit refusal (λ count limit. ⊥)) }
        ensures going { refusal_of self.old ≡ None → Moves self.old self.new }
        ensures same { refusal_of self.new ≡ refusal_of self.old }
        ensures cause { HasCause (told_of self.old).faults (told_of self.new).faults (result ≡ Err PageRefusal.DiskFault) }
    {
        match log.records_at(&mut self.disk, place, into) {
            Ok(next) => Ok(next),
            Err(refusal) => Err(of_log(refusal)),
        }
    }
}

impl<D: Disk> Target for OnPages<D> {
    ghost use Rattle.wat_repeating.specs.OnPages.{Stands, Moves};
    ghost use Rattle.wat_repeating.specs.MoveProofs.{moves_still, moves_on};

    ghost stands_for = { λ x s. Stands x s };

    ghost goes = { λ x y. Moves x y };

    ghost failures = { λ x. (D.told x.disk).faults };

    fn schema(&self) -> &Schema {
        self.objects.schema()
    }

    fn row(&mut self, table: u32, key: &Key) -> Result<Option<Row>, TargetError> {
        match self.refused {
            Some(refusal) => {
                return match rests(refusal) {
                    Ok(()) => Ok(None),
                    Err(error) => Err(error),
                };
            }
            None => {}
        }
        match self.objects.row(&mut self.disk, table, key) {
            Ok(row) => Ok(row),
            Err(refusal) => {
                self.refused = Some(refusal);
                match gives(refusal) {
                    Ok(()) => Ok(None),
                    Err(error) => Err(error),
                }
            }
        }
    }

    fn make(&mut self, change: &Change) -> Result<(), TargetError> {
        match self.refused {
            Some(refusal) => return rests(refusal),
            None => {}
        }
        match self.objects.make(&mut self.disk, change, Within::Any) {
            Ok(()) => Ok(()),
            Err(refusal) => {
                self.refused = Some(refusal);
                gives(refusal)
            }
        }
    }

    fn alter(&mut self, change: &SchemaChange) -> Result<(), TargetError> {
        match self.refused {
            Some(refusal) => return rests(refusal),
            None => {}
        }
        match self.objects.alter(&mut self.disk, change, Within::Any) {
            Ok(()) => Ok(()),
            Err(refusal) => {
                self.refused = Some(refusal);
                gives(refusal)
            }
        }
    }

    fn push(&mut self, conn: u16, change: Change) -> Result<(), TargetError> {
        match self.objects.push(conn, change) {
            Ok(()) => Ok(()),
            Err(_) => Err(TargetError::Memory),
        }
    }

    fn pop(&mut self, conn: u16) -> Option<Change> {
        self.objects.pop(conn)
    }

    fn count(&self, conn: u16) -> u32 {
        self.objects.count(conn)
    }

    fn next_open(&self, from: u32) -> Option<u16> {
        self.objects.next_open(from)
    }

    fn changed_by_other(&self, conn: u16, table: u32, key: &Key) -> bool {
        self.objects.changed_by_other(conn, table, key)
    }

    ghost still = { λ x. moves_still x };

    ghost goes_on = { λ x y z one two. moves_on x y z one two };
}
