// Who has the folder: the program that has the lock on the file `lock.wat`.
use crate::exclusive::Exclusive;
use std::fs::{OpenFile, OpenOptions};
use std::io::{self, Read, Write};
use std::rt::Files;

const LOCK: &str = "lock.wat";

/// Who has the folder.
#[derive(Clone, Copy, Debug, PartialEq, Eq)]
pub enum Holder {
    /// It was not asked for yet, or the operating system refused.
    Unknown,
    /// This program.
    This,
    /// Another program, with its number where it has told it.
    Another(Option<u32>),
}

/// The folder as a disk has it.
#[derive(Drop)]
pub(crate) enum Folder<F: Drop> {
    Unasked,
    /// The open file keeps the lock.
    Taken(F),
    Refused(Option<u32>),
}

impl<F: Drop> Folder<F> {
    pub fn holder(&self) -> Holder {
        match self {
            Folder::Unasked => Holder::Unknown,
            Folder::Taken(_) => Holder::This,
            Folder::Refused(number) => Holder::Another(*number),
        }
    }
}

// Tells the others which program has the folder.
fn note_number<F: OpenFile + Write>(lock: &mut F, number: u32) -> io::Result<()> {
    lock.set_len(0)?;
    writeln!(lock, "{number}")
}

// The number that the program that has the folder has told.
fn number_in<F: Read>(lock: &mut F) -> Option<u32> {
    let mut bytes = [0; 11];
    let count = lock.read(&mut bytes).ok()?;
    let text = str::from_utf8(&bytes[..count]).ok()?;
    text.trim_end().parse().ok()
}

/// Asks for the folder of the current program, which has this number.
pub(crate) fn take_folder<R: Files>(rt: &R, number: u32) -> io::Result<Folder<R::File>>
where
    R::File: Exclusive,
{
    let mut lock = OpenOptions::new()
        .read(true)
        .write(true)
        .create(true)
        .open(rt, LOCK)?;
    if !lock.try_take()? {
        return Ok(Folder::Refused(number_in(&mut lock)));
    }
    // The lock holds without the number, which is for people.
    let _ = note_number(&mut lock, number);
    Ok(Folder::Taken(lock))
}
