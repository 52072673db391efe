// The files of the folder as one program has them: open from their first use on.
ghost use Rattle.std.specs.Prelude.{◌≡◌, ◌+◌, ◌<◌, ◌^◌, length, IfOk};
ghost use Rattle.std.specs.Bool.{OnFalse};
ghost use Rattle.wat_folder.specs.FileNames.{file_name};

use crate::exclusive::Exclusive;
use crate::folder::{Folder, Holder, take_folder};
use crate::opened::{OpenedFile, make, open};
use std::alloc::Global;
use std::fs::OpenFile;
use std::io::ErrorKind;
use std::rt::Files;
use std::{fs, io};
use wat_disk::FileId;

/// The name of a file, by its number.
pub(crate) fn name_of(file: FileId) -> &'static str
    requires { file.0 < 8 }
    ensures { result.now ≡ file_name file.0 }
{
    match file.0 {
        0 => "main.wat",
        1 => "before.wat",
        2 => "log.wat",
        3 => "backup.wat",
        4 => "copy.wat",
        5 => "mirror.wat",
        6 => "leader.wat",
        _ => "spare.wat",
    }
}

// A file of the folder, as far as it was used.
#[derive(Drop)]
enum Slot<F: Drop> {
    Closed,
    Open(OpenedFile<F>),
    // A write or a sync has failed, so what the medium holds is not known.
    Failed,
}

/// What the program has of the folder.
#[derive(Drop)]
pub(crate) struct OpenFiles<R: Files> {
    alloc: Global,
    number: u32,
    folder: Folder<R::File>,
    slots: [Slot<R::File>; 8],
    is_folder_synced: bool,
}

fn refused() -> io::Error {
    io::Error::from(ErrorKind::ResourceBusy)
}

impl<R: Files> OpenFiles<R> {
    /// Nothing yet, for the program with this number.
    pub fn new(alloc: Global, number: u32) -> Self {
        OpenFiles {
            alloc,
            number,
            folder: Folder::Unasked,
            slots: [
                Slot::Closed,
                Slot::Closed,
                Slot::Closed,
                Slot::Closed,
                Slot::Closed,
                Slot::Closed,
                Slot::Closed,
                Slot::Closed,
            ],
            is_folder_synced: false,
        }
    }

    /// Who has the folder.
    pub fn holder(&self) -> Holder {
        self.folder.holder()
    }

    /// From now on each call on the file fails.
    pub fn fail(&mut self, file: FileId)
        requires { file.0 < 8 }
    {
        self.slots[file.0 as usize] = Slot::Failed;
    }

    // Takes the folder, if this program doesn't have it yet.
    fn take(&mut self, rt: &R) -> io::Result<()>
    where
        R::File: Exclusive,
    {
        if let Folder::Taken(_) = self.folder {
            return Ok(());
        }
        self.folder = take_folder(rt, self.number)?;
        match self.folder {
            Folder::Taken(_) => Ok(()),
            _ => Err(refused()),
        }
    }

    // Opens the file, if it is there and wasn't open.
    fn prepare(&mut self, rt: &R, file: FileId) -> io::Result<()>
    where
        R::File: Exclusive,
        requires { file.0 < 8 }
    {
        self.take(rt)?;
        if let Slot::Closed = self.slots[file.0 as usize]
            && let Some(opened) = open(rt, self.alloc, name_of(file))?
        {
            self.slots[file.0 as usize] = Slot::Open(opened);
        }
        Ok(())
    }

    /// The length of a file, which is 0 where it isn't there.
    pub fn length(&mut self, rt: &R, file: FileId) -> io::Result<u64>
    where
        R::File: Exclusive,
        requires { file.0 < 8 }
    {
        self.prepare(rt, file)?;
        match &self.slots[file.0 as usize] {
            Slot::Closed => Ok(0),
            Slot::Open(opened) => Ok(opened.length()),
            Slot::Failed => Err(refused()),
        }
    }

    /// Whether the bytes are there, and then it has read them.
    pub fn read(&mut self, rt: &R, file: FileId, at: u64, into: &mut [u8]) -> io::Result<bool>
    where
        R::File: Exclusive,
        requires { file.0 < 8 }
        ensures { IfOk result (λ there. OnFalse there (into.new ≡ into.old)) }
    {
        self.prepare(rt, file)?;
        match &mut self.slots[file.0 as usize] {
            Slot::Closed => Ok(at == 0 && into.is_empty()),
            Slot::Open(opened) => opened.read(at, into),
            Slot::Failed => Err(refused()),
        }
    }

    // Makes the file, where it isn't there.
    fn prepare_to_write(&mut self, rt: &R, file: FileId) -> io::Result<()>
    where
        R::File: Exclusive,
        requires { file.0 < 8 }
    {
        self.prepare(rt, file)?;
        if let Slot::Closed = self.slots[file.0 as usize] {
            let made = make(rt, self.alloc, name_of(file))?;
            self.is_folder_synced = false;
            self.slots[file.0 as usize] = Slot::Open(made);
        }
        Ok(())
    }

    /// Writes the bytes there. No bytes within a file leave it as it is, and make none.
    pub fn write(&mut self, rt: &R, file: FileId, at: u64, bytes: &[u8]) -> io::Result<()>
    where
        R::File: Exclusive,
        requires file { file.0 < 8 }
        requires in_range { at + length bytes.now < 2 ^ 64 }
    {
        if bytes.is_empty() && at <= self.length(rt, file)? {
            return Ok(());
        }
        self.prepare_to_write(rt, file)?;
        match &mut self.slots[file.0 as usize] {
            Slot::Open(opened) => opened.write(at, bytes),
            _ => Err(refused()),
        }
    }

    /// Puts a file on the medium, and the folder where it wasn't since a file was made.
    pub fn sync(&mut self, rt: &R, file: FileId) -> io::Result<()>
    where
        R::File: Exclusive,
        requires { file.0 < 8 }
    {
        self.prepare(rt, file)?;
        match &self.slots[file.0 as usize] {
            Slot::Closed => {}
            Slot::Open(opened) => opened.sync()?,
            Slot::Failed => return Err(refused()),
        }
        if !self.is_folder_synced {
            fs::open(rt, ".")?.sync_all()?;
            self.is_folder_synced = true;
        }
        Ok(())
    }
}
