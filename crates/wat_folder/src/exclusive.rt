// The lock on a file that the operating system takes back by itself when a program ends, however it ends.
use std::fs::{File, TryLockError};
use std::io;

/// A file that one of its openings can have for itself.
pub trait Exclusive {
    /// Takes the file until this opening is closed, at the latest by the end of the program. False where another opening
    /// has it.
    fn try_take(&self) -> io::Result<bool>;
}

impl Exclusive for File {
    fn try_take(&self) -> io::Result<bool> {
        match self.try_lock() {
            Ok(()) => Ok(true),
            Err(TryLockError::WouldBlock) => Ok(false),
            Err(TryLockError::Error(error)) => Err(error),
        }
    }
}
