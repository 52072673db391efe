use std::fmt;
use thiserror::Error;

/// Why a command was not done. Scripts are numbered from 1, and places are counted in bytes from 0.
#[derive(Clone, Copy, Debug, PartialEq, Eq, Error)]
pub enum Fault {
    /// The words are no command.
    Usage,
    /// The script's name is not there, or reading it failed.
    CannotRead { script: u64 },
    /// The script is longer than the limit.
    TooLong { script: u64 },
    /// The script is no UTF-8 text from `at` on.
    NotText { script: u64, at: u64 },
    /// The log is empty, so that there is no database.
    NoDatabase,
    /// The log is not empty, so that no database is made.
    Exists,
    /// The log is no log of transactions from `at` on.
    Damaged { at: u64 },
    /// The disk failed.
    DiskFault,
    /// Memory ran out.
    Memory,
}

/// A fault's text, on one line.
impl fmt::Display for Fault {
    ghost use Rattle.std.specs.Prelude.{Some};
    ghost use Rattle.wat_begin.specs.Texts.{fault_text};

    ghost output = { λ fault. Some (fault_text fault) };

    fn fmt<W: fmt::Write>(&self, f: &mut fmt::Formatter<W>) -> fmt::Result {
        match self {
            Fault::Usage => f.write_str("usage"),
            Fault::CannotRead { script } => write!(f, "cannot read script {script}"),
            Fault::TooLong { script } => write!(f, "script {script} is too long"),
            Fault::NotText { script, at } => write!(f, "script {script} is not text at {at}"),
            Fault::NoDatabase => f.write_str("no database"),
            Fault::Exists => f.write_str("a database is here"),
            Fault::Damaged { at } => write!(f, "damaged log at {at}"),
            Fault::DiskFault => f.write_str("disk fault"),
            Fault::Memory => f.write_str("want of memory"),
        }
    }
}
