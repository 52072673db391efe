ghost use Rattle.std.specs.Prelude.{◌≡◌, ◌≢◌, length, drop, IfErr, IfOk, IsOk, IsOkUnless};
ghost use Rattle.std.specs.Vec.Iter.{into_iter_items, into_iter_len};
ghost use Rattle.std.specs.IoError.{error_kind};
ghost use Rattle.std.specs.Process.{exit_status};

use std::alloc::Global;
use std::env::Args;
use std::io::{self, ErrorKind};
use std::process::ExitCode;
use wat_begin::Fault;

/// The words after the program's name. Where an argument is no UTF-8, the words are no command.
pub fn words_of(alloc: Global, arguments: io::Result<Args>) -> Result<Vec<String>, Fault>
    // They are all arguments but the first.
    ensures words { IfOk arguments (λ all. into_iter_len all ≡ length (into_iter_items all) → IfOk result (λ words. words.items ≡ drop 1 (into_iter_items all))) }
    ensures memory { IsOk arguments → IsOkUnless result Fault.Memory }
    ensures no_text { IfErr arguments (λ error. error_kind error ≢ ErrorKind.OutOfMemory → result ≡ Err Fault.Usage) }
    ensures no_memory { IfErr arguments (λ error. error_kind error ≡ ErrorKind.OutOfMemory → result ≡ Err Fault.Memory) }
{
    match arguments {
        Ok(all) => all.skip(1).collect(alloc).map_err(|_| Fault::Memory),
        Err(error) if error.kind() == ErrorKind::OutOfMemory => Err(Fault::Memory),
        Err(_) => Err(Fault::Usage),
    }
}

/// The code of the program's end with this status.
pub fn exit_code(status: u8) -> ExitCode
    ensures { exit_status result ≡ status }
{
    ExitCode::from(status)
}
