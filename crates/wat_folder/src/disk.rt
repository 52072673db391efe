// The disk of a real program.
ghost use Rattle.std.specs.Prelude.{◌≡◌, ◌+◌, ◌<◌, ◌≤◌, ◌^◌, ◌-◌, ◌↔◌, [], min, IsTrue};
ghost use Rattle.wat_faults.specs.Faults.{counted};

use crate::exclusive::Exclusive;
use crate::files::OpenFiles;
use crate::folder::Holder;
use std::alloc::Global;
use std::rt::Files;
use wat_disk::{Disk, DiskError, FileId};

/// The files `main.wat`, `before.wat`, `log.wat`, `backup.wat`, `copy.wat`, `mirror.wat`, `leader.wat` and `spare.wat` of
/// the current folder, by their numbers from 0 to 7.
///
/// Before its first call it takes the folder, by a lock on the file `lock.wat` that the operating system takes back when
/// the program ends; where another program has the folder, each call fails. A file that isn't there reads as empty, and
/// the first write to it makes it, unless it is of no bytes at place 0. A file stays open, and a call fails that finds it
/// of another length than this disk has seen or left. A sync reaches the medium, and takes the folder along where a file
/// was made, or where this disk hasn't synced it yet. Where a write or a sync has failed, each later call on that file
/// fails. It tells no content: nothing is proved of what the operating system keeps. Its count of faults rises where the
/// operating system refuses a call, where something that is no file has one of these names, and at the last moment.
#[derive(Drop)]
pub struct FileDisk<'a, R: Files> {
    rt: &'a R,
    files: OpenFiles<R>,
    moment: u64,
    faults: u64,
}

impl<'a, R: Files> FileDisk<'a, R> {
    /// The disk in the current folder, for the program with this number. It touches no file yet.
    pub fn new(rt: &'a R, alloc: Global, number: u32) -> FileDisk<'a, R>
        ensures moment { result.moment ≡ 0 }
        ensures faults { result.faults ≡ 0 }
    {
        FileDisk {
            rt,
            files: OpenFiles::new(alloc, number),
            moment: 0,
            faults: 0,
        }
    }

    /// Who has the folder.
    pub fn holder(&self) -> Holder {
        self.files.holder()
    }

    // Counts a call, and says whether it is to be made.
    fn begin(&mut self) -> bool
        ensures made { IsTrue result ↔ (self.old.moment + 1 < 2 ^ 64) }
        ensures moment { self.new.moment ≡ min (self.old.moment + 1) (2 ^ 64 - 1) }
        ensures later { self.old.moment ≤ self.new.moment }
        ensures faults { self.new.faults ≡ self.old.faults }
    {
        let in_time = self.moment < u64::MAX;
        self.moment = self.moment.saturating_add(1);
        in_time
    }

    fn fault(&mut self)
        ensures moment { self.new.moment ≡ self.old.moment }
        ensures faults { self.new.faults ≡ counted self.old.faults }
        ensures never_falls { self.old.faults ≤ self.new.faults }
    {
        self.faults = self.faults.saturating_add(1);
    }
}

impl<'a, R: Files> Disk for FileDisk<'a, R>
where
    R::File: Exclusive,
{
    ghost tells_content = { ⊥ };

    ghost told = { λ disk. record { content = λ file. []; left_at = λ t image. ⊥; moment = disk.moment; faults = disk.faults } };

    ghost reads_as_left = { λ disk tells. absurd tells };

    #[tactic(auto, using(crate::proofs::Telling::stops, crate::proofs::Telling::failed, crate::proofs::Telling::answered))]
    fn length(&mut self, file: FileId) -> Result<u64, DiskError> {
        if !self.begin() {
            self.fault();
            return Err(DiskError::Failed);
        }
        match self.files.length(self.rt, file) {
            Ok(length) => Ok(length),
            Err(_) => {
                self.fault();
                Err(DiskError::Failed)
            }
        }
    }

    #[tactic(auto, using(crate::proofs::Telling::stops, crate::proofs::Telling::failed, crate::proofs::Telling::answered))]
    fn read(&mut self, file: FileId, at: u64, into: &mut [u8]) -> Result<(), DiskError> {
        if !self.begin() {
            self.fault();
            return Err(DiskError::Failed);
        }
        match self.files.read(self.rt, file, at, into) {
            Ok(true) => Ok(()),
            Ok(false) => Err(DiskError::Past),
            Err(_) => {
                self.fault();
                Err(DiskError::Failed)
            }
        }
    }

    #[tactic(auto, using(crate::proofs::Telling::stops, crate::proofs::Telling::failed, crate::proofs::Telling::answered))]
    fn write_at(&mut self, file: FileId, at: u64, bytes: &[u8]) -> Result<(), DiskError> {
        if !self.begin() {
            self.fault();
            return Err(DiskError::Failed);
        }
        match self.files.write(self.rt, file, at, bytes) {
            Ok(()) => Ok(()),
            Err(_) => {
                self.files.fail(file);
                self.fault();
                Err(DiskError::Failed)
            }
        }
    }

    #[tactic(auto, using(crate::proofs::Telling::stops, crate::proofs::Telling::failed, crate::proofs::Telling::answered))]
    fn sync(&mut self, file: FileId) -> Result<(), DiskError> {
        if !self.begin() {
            self.fault();
            return Err(DiskError::Failed);
        }
        match self.files.sync(self.rt, file) {
            Ok(()) => Ok(()),
            Err(_) => {
                self.files.fail(file);
                self.fault();
                Err(DiskError::Failed)
            }
        }
    }

    fn moment(&self) -> u64 {
        self.moment
    }
}
