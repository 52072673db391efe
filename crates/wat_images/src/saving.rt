// The images of pages are saved before the pages are written over.
ghost use Rattle.std.specs.Prelude.{◌≡◌, ◌+◌, ◌*◌, ◌<◌, ◌≤◌, ◌++◌, [], ◌∷◌, length, OnOk, IfErr};
ghost use Rattle.wat_disk.specs.Disk.{IsSynced, InFile, SameFiles, SameOthers, EachStop};
ghost use Rattle.wat_faults.specs.Faults.{HasCause};
ghost use Rattle.wat_gate.specs.Bodies.{bodies, KeepsOrAdds};
ghost use Rattle.wat_gate.specs.GateLog.{file_of, IsLogOf};
ghost use Rattle.wat_restore.specs.Restored.{page_at, HasPage, image_bytes, Checkpoint};
ghost use Rattle.wat_restore.specs.Safe.{IsSafe, CanSave, HasSaved, Covers};
ghost use Rattle.wat_restore.specs.Images.{encoded, pages_of, IsShort};
ghost use Rattle.wat_images.specs.Refusal.{IfDamaged, IfPageLimit};

use crate::PageRefusal;
use crate::main_file::read_main;
use std::alloc::Global;
use wat_disk::Disk;
use wat_gate::{Frame, GateLog};

// Adds the image of a page to a frame.
fn push_image<D: Disk>(disk: &mut D, frame: &mut Frame, page: u32) -> Result<(), PageRefusal>
    requires { length frame.old.body + 4100 ≤ 2000000 }
    ensures whole { D.tells_content → OnOk result (HasPage ((D.told disk.old).content 0) page (page_at ((D.told disk.old).content 0) page)) }
    ensures pushed { D.tells_content → OnOk result (frame.new.body ≡ frame.old.body ++ image_bytes (page, page_at ((D.told disk.old).content 0) page)) }
    ensures size { OnOk result (length frame.new.body ≡ length frame.old.body + 4100) }
    ensures limited { IfErr result (λ refusal. IfPageLimit refusal (λ count limit. ⊥)) }
    ensures damaged { D.tells_content → IfErr result (λ refusal. IfDamaged refusal (λ file at. (file ≡ 0) × (at ≡ 4096 * page) × (length ((D.told disk.old).content 0) < 4096 * page + 4096))) }
    ensures content { SameFiles (D.told disk.old).content (D.told disk.new).content }
    ensures stops { EachStop (D.told disk.old) (D.told disk.new) SameFiles }
    ensures cause { HasCause (D.told disk.old).faults (D.told disk.new).faults (result ≡ Err PageRefusal.DiskFault) }
{
    let mut bytes = [0; 4096];
    read_main(disk, page, &mut bytes)?;
    frame.push(&page.to_be_bytes())?;
    frame.push(&bytes)?;
    Ok(())
}

// Appends a frame with the images of these pages.
fn append_images<D: Disk>(
    alloc: Global,
    disk: &mut D,
    before: &mut GateLog,
    pages: &[u32],
) -> Result<(), PageRefusal>
    requires known { D.tells_content → IsLogOf (D.told disk.old) before.old }
    requires file { file_of before.old ≡ 1 }
    requires some { 0 < length pages.now }
    requires few { length pages.now ≤ 487 }
    ensures known { D.tells_content → OnOk result (IsLogOf (D.told disk.new) before.new) }
    ensures added { D.tells_content → OnOk result (bodies ((D.told disk.new).content 1) ≡ bodies ((D.told disk.old).content 1) ++ encoded (pages_of ((D.told disk.old).content 0) pages.now) ∷ []) }
    ensures synced { OnOk result (IsSynced (D.told disk.new) 1) }
    ensures file { file_of before.new ≡ 1 }
    ensures others { SameOthers 1 (D.told disk.old).content (D.told disk.new).content }
    ensures stops { D.tells_content → IsSynced (D.told disk.old) 1
        → EachStop (D.told disk.old) (D.told disk.new) (InFile 1 (KeepsOrAdds (encoded (pages_of ((D.told disk.old).content 0) pages.now)))) }
    ensures limited { IfErr result (λ refusal. IfPageLimit refusal (λ count limit. ⊥)) }
    ensures damaged { D.tells_content → IfErr result (λ refusal. IfDamaged refusal (IsShort ((D.told disk.old).content 0) pages.now)) }
    ensures cause { HasCause (D.told disk.old).faults (D.told disk.new).faults (result ≡ Err PageRefusal.DiskFault) }
{
    let mut frame = Frame::new(alloc)?;
    for page in pages {
        push_image(disk, &mut frame, *page)?;
    }
    if !before.has_room(&frame) {
        return Err(PageRefusal::Memory);
    }
    before.append(disk, &frame)?;
    Ok(())
}

// Appends the images of these pages, as main has them, at most 487 in a frame.
pub(crate) fn save_images<D: Disk>(
    alloc: Global,
    disk: &mut D,
    before: &mut GateLog,
    pages: &[u32],
) -> Result<(), PageRefusal>
    requires known { D.tells_content → IsLogOf (D.told disk.old) before.old }
    requires file { file_of before.old ≡ 1 }
    ensures known { D.tells_content → OnOk result (IsLogOf (D.told disk.new) before.new) }
    ensures file { file_of before.new ≡ 1 }
    ensures others { SameOthers 1 (D.told disk.old).content (D.told disk.new).content }
    ensures saved { D.tells_content → (saved : Checkpoint) → IsSafe saved (D.told disk.old) → CanSave saved ((D.told disk.old).content 1) pages.now
        → OnOk result (HasSaved saved (D.told disk.old) (D.told disk.new) pages.now) }
    ensures stops { D.tells_content → (saved : Checkpoint) → IsSafe saved (D.told disk.old) → CanSave saved ((D.told disk.old).content 1) pages.now
        → EachStop (D.told disk.old) (D.told disk.new) (Covers saved) }
    ensures limited { IfErr result (λ refusal. IfPageLimit refusal (λ count limit. ⊥)) }
    ensures damaged { D.tells_content → IfErr result (λ refusal. IfDamaged refusal (IsShort ((D.told disk.old).content 0) pages.now)) }
    ensures cause { HasCause (D.told disk.old).faults (D.told disk.new).faults (result ≡ Err PageRefusal.DiskFault) }
{
    let mut at = 0;
    while at < pages.len() {
        let end = at + (pages.len() - at).min(487);
        append_images(alloc, disk, before, &pages[at..end])?;
        at = end;
    }
    Ok(())
}
