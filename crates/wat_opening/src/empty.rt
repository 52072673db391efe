// Whether there is a database at all.
ghost use Rattle.std.specs.Prelude.{◌≡◌, ◌↔◌, ◌<◌, [], Err, IsTrue, IfOk, IfErr};
ghost use Rattle.wat_disk.specs.Disk.{SameFiles, EachStop};
ghost use Rattle.wat_faults.specs.Faults.{HasCause};
ghost use Rattle.wat_images.specs.Refusal.{IfDamaged, IfPageLimit};
ghost use Rattle.wat_opening.specs.Opening.{AreEmpty};

use wat_disk::{Disk, DiskError, FileId};
use wat_pages::PageRefusal;

/// Whether the file is empty.
fn is_empty<D: Disk>(disk: &mut D, file: FileId) -> Result<bool, PageRefusal>
    requires { file.0 < 8 }
    ensures empty { D.tells_content → IfOk result (λ empty. IsTrue empty ↔ ((D.told disk.old).content file.0 ≡ [])) }
    ensures undamaged { IfErr result (λ refusal. IfDamaged refusal (λ file at. ⊥)) }
    ensures limited { IfErr result (λ refusal. IfPageLimit refusal (λ count limit. ⊥)) }
    ensures content { SameFiles (D.told disk.old).content (D.told disk.new).content }
    ensures stops { EachStop (D.told disk.old) (D.told disk.new) SameFiles }
    ensures cause { HasCause (D.told disk.old).faults (D.told disk.new).faults (result ≡ Err PageRefusal.DiskFault) }
{
    match disk.length(file) {
        Ok(length) => Ok(length == 0),
        Err(DiskError::Failed) => Err(PageRefusal::DiskFault),
        Err(_) => Err(PageRefusal::Memory),
    }
}

/// Whether all three files are empty.
pub(crate) fn are_empty<D: Disk>(disk: &mut D) -> Result<bool, PageRefusal>
    ensures empty { D.tells_content → IfOk result (λ empty. IsTrue empty ↔ AreEmpty (D.told disk.old).content) }
    ensures undamaged { IfErr result (λ refusal. IfDamaged refusal (λ file at. ⊥)) }
    ensures limited { IfErr result (λ refusal. IfPageLimit refusal (λ count limit. ⊥)) }
    ensures content { SameFiles (D.told disk.old).content (D.told disk.new).content }
    ensures stops { EachStop (D.told disk.old) (D.told disk.new) SameFiles }
    ensures cause { HasCause (D.told disk.old).faults (D.told disk.new).faults (result ≡ Err PageRefusal.DiskFault) }
{
    match is_empty(disk, FileId(0)) {
        Ok(true) => {}
        Ok(false) => return Ok(false),
        Err(refusal) => return Err(refusal),
    }
    match is_empty(disk, FileId(1)) {
        Ok(true) => {}
        Ok(false) => return Ok(false),
        Err(refusal) => return Err(refusal),
    }
    match is_empty(disk, FileId(2)) {
        Ok(empty) => Ok(empty),
        Err(refusal) => Err(refusal),
    }
}
