// A file that stays open, and what is known of it.
ghost use Rattle.std.specs.Prelude.{◌≡◌, ◌+◌, ◌<◌, ◌≤◌, ◌^◌, length, IfOk};
ghost use Rattle.std.specs.Bool.{OnFalse};

use std::alloc::Global;
use std::fs::{self, Metadata, OpenFile, OpenOptions};
use std::io::{self, ErrorKind, Read, Seek, SeekFrom, Write};
use std::rt::Files;

/// How many bytes are read at once, where so many are there.
const PIECE: usize = 65_536;

// Bytes of a file that were read before they were asked for.
#[derive(Drop)]
struct Ahead {
    at: u64,
    bytes: Vec<u8>,
}

impl Ahead {
    // Whether all bytes that were asked for are among them, and then it has given them.
    fn give(&self, at: u64, into: &mut [u8]) -> bool
        ensures { OnFalse result (into.new ≡ into.old) }
    {
        let Some(skipped) = at.checked_sub(self.at) else {
            return false;
        };
        if skipped > self.bytes.len() as u64 {
            return false;
        }
        let rest = &self.bytes[skipped as usize..];
        if rest.len() < into.len() {
            return false;
        }
        into.copy_from_slice(&rest[..into.len()]);
        true
    }
}

/// An open file.
#[derive(Drop)]
pub(crate) struct OpenedFile<F: Drop> {
    handle: F,
    // The length that this program has last seen or left.
    length: u64,
    // Where the handle reads or writes next, where that is known.
    position: Option<u64>,
    ahead: Ahead,
}

// The length of a file; a folder in its place is refused.
fn file_length(metadata: &Metadata) -> io::Result<u64> {
    if metadata.is_file() {
        Ok(metadata.len())
    } else {
        Err(io::Error::from(ErrorKind::InvalidInput))
    }
}

impl<F: OpenFile + Read + Write + Seek + Drop> OpenedFile<F> {
    fn of(alloc: Global, handle: F) -> io::Result<Self> {
        let length = file_length(&handle.metadata()?)?;
        Ok(OpenedFile {
            handle,
            length,
            position: None,
            ahead: Ahead {
                at: 0,
                bytes: Vec::new(alloc),
            },
        })
    }

    pub fn length(&self) -> u64 {
        self.length
    }

    // Refuses a file that another program has made longer or shorter.
    fn expect_length(&self) -> io::Result<()> {
        if file_length(&self.handle.metadata()?)? == self.length {
            Ok(())
        } else {
            Err(io::Error::from(ErrorKind::InvalidData))
        }
    }

    fn seek_to(&mut self, at: u64) -> io::Result<()>
        ensures length { self.new.length ≡ self.old.length }
    {
        if self.position != Some(at) {
            self.position = None;
            self.handle.seek(SeekFrom::Start(at))?;
        }
        Ok(())
    }

    fn read_at(&mut self, at: u64, into: &mut [u8]) -> io::Result<()> {
        self.seek_to(at)?;
        self.position = None;
        self.handle.read_exact(into)?;
        self.position = at.checked_add(into.len() as u64);
        Ok(())
    }

    // Reads a piece that begins there. Without memory it reads none.
    fn look_ahead(&mut self, at: u64) -> io::Result<()> {
        self.ahead.bytes.clear();
        let left = self.length.saturating_sub(at);
        let size = PIECE.min(left as usize);
        if self.ahead.bytes.resize(size, 0).is_err() {
            return Ok(());
        }
        self.seek_to(at)?;
        self.position = None;
        let read = self.handle.read_exact(&mut self.ahead.bytes);
        if read.is_err() {
            self.ahead.bytes.clear();
        }
        self.ahead.at = at;
        self.position = at.checked_add(size as u64);
        read
    }

    /// Whether the bytes are there, and then it has read them.
    pub fn read(&mut self, at: u64, into: &mut [u8]) -> io::Result<bool>
        ensures { IfOk result (λ there. OnFalse there (into.new ≡ into.old)) }
    {
        if at > self.length || into.len() as u64 > self.length - at {
            return Ok(false);
        }
        if self.ahead.give(at, into) {
            return Ok(true);
        }
        self.expect_length()?;
        if into.len() < PIECE {
            self.look_ahead(at)?;
            if self.ahead.give(at, into) {
                return Ok(true);
            }
        }
        self.read_at(at, into)?;
        Ok(true)
    }

    /// Writes the bytes there, behind zeros where the file ends before.
    pub fn write(&mut self, at: u64, bytes: &[u8]) -> io::Result<()>
        requires { at + length bytes.now < 2 ^ 64 }
    {
        self.expect_length()?;
        self.ahead.bytes.clear();
        if at > self.length {
            self.handle.set_len(at)?;
            self.length = at;
        }
        self.seek_to(at)?;
        self.position = None;
        self.handle.write_all(bytes)?;
        let end = at + bytes.len() as u64;
        self.position = Some(end);
        self.length = self.length.max(end);
        Ok(())
    }

    /// Puts what was written on the medium.
    pub fn sync(&self) -> io::Result<()> {
        self.handle.sync_data()
    }
}

/// Opens a file of the folder, if it is there. One that may not be written is opened to be read.
pub(crate) fn open<R: Files>(
    rt: &R,
    alloc: Global,
    name: &str,
) -> io::Result<Option<OpenedFile<R::File>>> {
    let opened = match OpenOptions::new().read(true).write(true).open(rt, name) {
        Err(error) if error.kind() == ErrorKind::PermissionDenied => fs::open(rt, name),
        other => other,
    };
    match opened {
        Ok(handle) => Ok(Some(OpenedFile::of(alloc, handle)?)),
        Err(error) if error.kind() == ErrorKind::NotFound => Ok(None),
        Err(error) => Err(error),
    }
}

/// Makes a file of the folder.
pub(crate) fn make<R: Files>(rt: &R, alloc: Global, name: &str) -> io::Result<OpenedFile<R::File>> {
    let handle = OpenOptions::new()
        .read(true)
        .write(true)
        .create_new(true)
        .open(rt, name)?;
    OpenedFile::of(alloc, handle)
}
