ghost use Rattle.std.specs.Prelude.{◌≡◌, ◌≢◌, ◌≤◌, ◌<◌, ℕ, [], ◌∷◌, ◌++◌, length, take, List, map, string_bytes, IfSome, IfNone};
ghost use Rattle.std.specs.Str.{IsUtf8};
ghost use Rattle.std.specs.Str.Lossy.{utf8_valid_len};
ghost use Rattle.wat_begin.specs.Faults.{UnlessMemory};
ghost use Rattle.wat_begin.specs.Readings.{Reading, MayRead, AreReadings, names_asked, script_of, scripts_of};

use crate::fault::Fault;
use std::alloc::Global;
use wat_conn::{Script, ScriptList};
use wat_io::{ScriptError, Scripts};

/// A script has at most so many bytes.
const SCRIPT_LIMIT: usize = 16777216;

/// Where the bytes stop being text, if they do.
fn not_text_at(bytes: &[u8]) -> Option<u64>
    ensures at { IfSome result (λ at. (at ≡ utf8_valid_len bytes.now) × (at < length bytes.now)) }
    ensures whole { IfNone result (utf8_valid_len bytes.now ≡ length bytes.now) }
    ensures text { IfNone result (IsUtf8 bytes.now) }
{
    match std::str::from_utf8(bytes) {
        Ok(_) => None,
        Err(error) => Some(error.valid_up_to() as u64),
    }
}

/// Reads script number `number`.
fn read_script<L: Scripts>(
    alloc: Global,
    number: u64,
    name: &str,
    scripts: &mut L,
) -> Result<Script, Fault>
    ensures read { UnlessMemory result ((reading : Reading) × MayRead (L.texts scripts.old) (L.faults scripts.old) (L.faults scripts.new) name.now reading
        × (result ≡ script_of number reading)) }
    ensures asked { L.asked scripts.new ≡ L.asked scripts.old ++ name.now ∷ [] }
    ensures texts { L.texts scripts.new ≡ L.texts scripts.old }
    ensures faults { L.faults scripts.old ≤ L.faults scripts.new }
    ensures kept { result ≢ Err (Fault.CannotRead number) → L.faults scripts.new ≡ L.faults scripts.old }
{
    let mut bytes = Vec::new(alloc);
    match scripts.read(name, SCRIPT_LIMIT + 1, &mut bytes) {
        Ok(()) => {}
        Err(ScriptError::Absent) => return Err(Fault::CannotRead { script: number }),
        Err(ScriptError::Failed) => return Err(Fault::CannotRead { script: number }),
        Err(ScriptError::Memory) => return Err(Fault::Memory),
    }
    if bytes.len() > SCRIPT_LIMIT {
        return Err(Fault::TooLong { script: number });
    }
    if let Some(at) = not_text_at(bytes.as_slice()) {
        return Err(Fault::NotText { script: number, at });
    }
    Ok(Script::from(String::from_utf8(bytes).unwrap()))
}

/// Reads the scripts under these names, in order, up to the first fault. Each that is read is UTF-8 of at most
/// 16,777,216 bytes.
pub fn read_scripts<L: Scripts>(
    alloc: Global,
    names: &[String],
    scripts: &mut L,
) -> Result<ScriptList, Fault>
    // The names that were asked for are the first ones, in order, each once: all of them, or those up to the script at fault.
    // Where memory was wanted, it may have been behind any of them.
    ensures asked { UnlessMemory result (L.asked scripts.new ≡ L.asked scripts.old ++ names_asked (map string_bytes names.now) result) }
    ensures asked_first { (k : ℕ) × (L.asked scripts.new ≡ L.asked scripts.old ++ take k (map string_bytes names.now)) }
    // Each of those was read as it may be read, and the answer is what those readings come to.
    ensures read { UnlessMemory result ((readings : List Reading) × AreReadings (L.texts scripts.old) (L.faults scripts.old) (L.faults scripts.new) (names_asked (map string_bytes names.now) result) readings
        × (result ≡ scripts_of 1 readings)) }
    ensures texts { L.texts scripts.new ≡ L.texts scripts.old }
    ensures faults { L.faults scripts.old ≤ L.faults scripts.new }
    // No fault is counted, unless the answer is that a script can't be read.
    ensures kept { ((i : ℕ) → result ≢ Err (Fault.CannotRead i)) → L.faults scripts.new ≡ L.faults scripts.old }
{
    let mut texts = ScriptList::new(alloc);
    for (i, name) in names.iter().enumerate() {
        let text = match read_script(alloc, i as u64 + 1, name.as_str(), scripts) {
            Ok(text) => text,
            Err(fault) => return Err(fault),
        };
        if texts.push(text).is_err() {
            return Err(Fault::Memory);
        }
    }
    Ok(texts)
}
