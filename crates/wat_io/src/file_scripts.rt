ghost use Rattle.std.specs.Prelude.{◌≡◌, ◌≢◌, ℕ, [], ◌∷◌, ◌++◌, List, None, OnOk};
ghost use Rattle.wat_faults.specs.Faults.{HasCause};
ghost use Rattle.wat_io.specs.Readers.{GivesFirst};
ghost use Rattle.wat_io.specs.Scripts.{Reads};

use crate::asked::Asked;
use crate::scripts::{ScriptError, Scripts};
use std::fs;
use std::io::Read;
use std::rt::Files;

/// Scripts in files, named by their paths. What the files hold is not told, and a file that is not there is Failed too.
#[derive(Drop)]
pub struct FileScripts<'a, R: Files> {
    rt: &'a R,
    asked: Asked,
    faults: u64,
}

impl<'a, R: Files> FileScripts<'a, R> {
    /// No read was made yet.
    pub fn new(rt: &'a R) -> Self
        ensures asked { result.asked.names ≡ [] }
        ensures faults { result.faults ≡ 0 }
    {
        FileScripts {
            rt,
            asked: Asked::new(),
            faults: 0,
        }
    }
}

/// Appends what the reader gives, up to `most` bytes. An error may leave a part.
fn append_from<S: Read>(source: &mut S, most: usize, into: &mut Vec<u8>) -> Result<(), ScriptError>
    ensures given { OnOk result (GivesFirst (S.remaining source.old) (S.remaining source.new) most into.old.items into.new.items) }
    ensures appends { (more : List ℕ) × (into.new.items ≡ into.old.items ++ more) }
    ensures present { result ≢ Err ScriptError.Absent }
{
    let mut piece = [0u8; 4096];
    let mut left = most;
    while left > 0 {
        let want = left.min(piece.len());
        let Ok(count) = source.read(&mut piece[..want]) else {
            return Err(ScriptError::Failed);
        };
        if count == 0 {
            return Ok(());
        }
        if into.extend_from_slice(&piece[..count]).is_err() {
            return Err(ScriptError::Memory);
        }
        left -= count;
    }
    Ok(())
}

/// Appends what the file holds, up to `most` bytes. An error may leave a part.
fn append_file<R: Files>(
    rt: &R,
    name: &str,
    most: usize,
    into: &mut Vec<u8>,
) -> Result<(), ScriptError>
    ensures given { OnOk result ((file file_now : R.File) × GivesFirst (R.File.remaining file) (R.File.remaining file_now) most into.old.items into.new.items) }
    ensures appends { (more : List ℕ) × (into.new.items ≡ into.old.items ++ more) }
    ensures present { result ≢ Err ScriptError.Absent }
{
    let Ok(mut file) = fs::open(rt, name) else {
        return Err(ScriptError::Failed);
    };
    append_from(&mut file, most, into)
}

impl<'a, R: Files> Scripts for FileScripts<'a, R> {
    ghost texts = { λ _. None };

    ghost asked = { λ scripts. scripts.asked.names };

    ghost faults = { λ scripts. scripts.faults };

    fn read(&mut self, name: &str, most: usize, into: &mut Vec<u8>) -> Result<(), ScriptError>
        ensures read { Reads None name.now most into.old.items into.new.items result }
        ensures asked { self.new.asked.names ≡ self.old.asked.names ++ name.now ∷ [] }
        ensures faults { HasCause self.old.faults self.new.faults (result ≡ Err ScriptError.Failed) }
        ensures absent { result ≡ Err ScriptError.Absent → self.new.faults ≡ self.old.faults }

        // What is appended is what a file of the system gave, as far as the system tells.
        ensures given { OnOk result ((file file_now : R.File) × GivesFirst (R.File.remaining file) (R.File.remaining file_now) most into.old.items into.new.items) }
    {
        let before = into.len();
        self.asked.note(name.as_bytes());
        let answer = append_file(self.rt, name, most, into);
        if let Err(error) = answer {
            into.truncate(before);
            if error == ScriptError::Failed {
                self.faults = self.faults.saturating_add(1);
            }
        }
        answer
    }
}
