// The pages of the main file.
ghost use Rattle.std.specs.Prelude.{◌≡◌, ◌↔◌, ◌+◌, ◌*◌, ◌<◌, ◌++◌, [], ◌∷◌, length, OnOk, IfErr, IsErr};
ghost use Rattle.std.specs.BTreeMap.{keys, IsOrdered};
ghost use Rattle.std.specs.Ordering.{nat_cmp};
ghost use Rattle.wat_disk.specs.Bytes.{written, Torn};
ghost use Rattle.wat_disk.specs.Disk.{IsSynced, InFile, SameFiles, SameOthers, EachStop};
ghost use Rattle.wat_faults.specs.Faults.{HasCause};
ghost use Rattle.wat_restore.specs.Restored.{HasPage, laid, KeepsPagesBut};
ghost use Rattle.wat_restore.specs.Images.{AllWhole};
ghost use Rattle.wat_images.specs.Refusal.{IfDamaged, IfPageLimit};

use crate::PageRefusal;
use std::collections::BTreeMap;
use wat_disk::{Disk, DiskError, DiskFault, FileId};
use wat_slot::Page;

// Of a page that isn't whole in main.
fn refusal(error: DiskError, page: u32) -> PageRefusal
    ensures fault { result ≡ PageRefusal.DiskFault ↔ error ≡ DiskError.Failed }
    ensures limited { IfPageLimit result (λ count limit. ⊥) }
    ensures past { IfDamaged result (λ file at. (file ≡ 0) × (at ≡ 4096 * page) × (error ≡ DiskError.Past)) }
{
    match error {
        DiskError::Failed => PageRefusal::DiskFault,
        DiskError::Past => PageRefusal::Damaged {
            file: FileId(0),
            at: 4096 * u64::from(page),
        },
        DiskError::Memory => PageRefusal::Memory,
    }
}

// Reads a page of main.
pub(crate) fn read_main<D: Disk>(
    disk: &mut D,
    page: u32,
    into: &mut [u8],
) -> Result<(), PageRefusal>
    requires { length into.old ≡ 4096 }
    ensures limited { IfErr result (λ refusal. IfPageLimit refusal (λ count limit. ⊥)) }
    ensures read { D.tells_content → OnOk result (HasPage ((D.told disk.old).content 0) page into.new) }
    ensures damaged { D.tells_content → IfErr result (λ refusal. IfDamaged refusal (λ file at. (file ≡ 0) × (at ≡ 4096 * page) × (length ((D.told disk.old).content 0) < 4096 * page + 4096))) }
    ensures content { SameFiles (D.told disk.old).content (D.told disk.new).content }
    ensures stops { EachStop (D.told disk.old) (D.told disk.new) SameFiles }
    ensures cause { HasCause (D.told disk.old).faults (D.told disk.new).faults (result ≡ Err PageRefusal.DiskFault) }
{
    match disk.read(FileId(0), 4096 * u64::from(page), into) {
        Ok(()) => Ok(()),
        Err(error) => Err(refusal(error, page)),
    }
}

// Writes a page of main.
fn write_main<D: Disk>(disk: &mut D, page: u32, bytes: &Page) -> Result<(), DiskFault>
    ensures written { D.tells_content → OnOk result ((D.told disk.new).content 0 ≡ written ((D.told disk.old).content 0) (4096 * page) bytes.now) }
    ensures long { length bytes.now ≡ 4096 }
    ensures others { SameOthers 0 (D.told disk.old).content (D.told disk.new).content }
    ensures stops { EachStop (D.told disk.old) (D.told disk.new) (InFile 0 (Torn (4096 * page) (length bytes.now))) }
    ensures cause { HasCause (D.told disk.old).faults (D.told disk.new).faults (IsErr result) }
{
    match disk.write_at(FileId(0), 4096 * u64::from(page), bytes.as_slice()) {
        Ok(()) => Ok(()),
        Err(_) => Err(DiskFault),
    }
}

// Writes these pages to main.
pub(crate) fn write_pages<D: Disk>(
    disk: &mut D,
    pages: &BTreeMap<u32, Page>,
) -> Result<(), DiskFault>
    ensures written { D.tells_content → OnOk result ((D.told disk.new).content 0 ≡ laid ((D.told disk.old).content 0) pages.now.entries) }
    ensures long { OnOk result (AllWhole pages.now.entries) }
    ensures ordered { IsOrdered nat_cmp pages.now }
    ensures others { SameOthers 0 (D.told disk.old).content (D.told disk.new).content }
    ensures stops { EachStop (D.told disk.old) (D.told disk.new) (InFile 0 (KeepsPagesBut (keys pages.now))) }
    ensures cause { HasCause (D.told disk.old).faults (D.told disk.new).faults (IsErr result) }
{
    for (page, bytes) in pages {
        write_main(disk, *page, bytes)?;
    }
    Ok(())
}

// Writes these pages and then the header's, and syncs.
pub(crate) fn write_all<D: Disk>(
    disk: &mut D,
    pages: &BTreeMap<u32, Page>,
    header: &Page,
) -> Result<(), DiskFault>
    ensures written { D.tells_content → OnOk result ((D.told disk.new).content 0 ≡ laid ((D.told disk.old).content 0) (pages.now.entries ++ (0, header.now) ∷ [])) }
    ensures synced { OnOk result (IsSynced (D.told disk.new) 0) }
    ensures ordered { IsOrdered nat_cmp pages.now }
    ensures others { SameOthers 0 (D.told disk.old).content (D.told disk.new).content }
    ensures stops { EachStop (D.told disk.old) (D.told disk.new) (InFile 0 (KeepsPagesBut (keys pages.now ++ 0 ∷ []))) }
    ensures cause { HasCause (D.told disk.old).faults (D.told disk.new).faults (IsErr result) }
{
    write_pages(disk, pages)?;
    write_main(disk, 0, header)?;
    match disk.sync(FileId(0)) {
        Ok(()) => Ok(()),
        Err(_) => Err(DiskFault),
    }
}

// Writes these pages, and syncs.
pub(crate) fn write_synced_pages<D: Disk>(
    disk: &mut D,
    images: &BTreeMap<u32, Page>,
) -> Result<(), DiskFault>
    ensures written { D.tells_content → OnOk result ((D.told disk.new).content 0 ≡ laid ((D.told disk.old).content 0) images.now.entries) }
    ensures synced { OnOk result (IsSynced (D.told disk.new) 0) }
    ensures ordered { IsOrdered nat_cmp images.now }
    ensures others { SameOthers 0 (D.told disk.old).content (D.told disk.new).content }
    ensures stops { EachStop (D.told disk.old) (D.told disk.new) (InFile 0 (KeepsPagesBut (keys images.now))) }
    ensures cause { HasCause (D.told disk.old).faults (D.told disk.new).faults (IsErr result) }
{
    write_pages(disk, images)?;
    match disk.sync(FileId(0)) {
        Ok(()) => Ok(()),
        Err(_) => Err(DiskFault),
    }
}
