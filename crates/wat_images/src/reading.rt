// The images of a checkpoint log are read.
ghost use Rattle.std.specs.Prelude.{◌≡◌, ◌⊎◌, ◌+◌, ◌<◌, ◌++◌, [], ◌∷◌, ℕ, List, nat_eq, take, length, OnOk, IfOk, IfErr};
ghost use Rattle.std.specs.Bool.{OnTrue, OnFalse};
ghost use Rattle.std.specs.List.{IsDistinct};
ghost use Rattle.std.specs.Map.{keys_of};
ghost use Rattle.wat_disk.specs.Disk.{SameFiles, EachStop};
ghost use Rattle.wat_faults.specs.Faults.{HasCause};
ghost use Rattle.wat_gate.specs.GateLog.{file_of, frames_of, bodies_in, IsLogOf, IsGateOf};
ghost use Rattle.wat_restore.specs.Opening.{IsNoImageFrameAt, IsBrokenLog, HasNoImages, IsMissing};
ghost use Rattle.wat_restore.specs.Restored.{images_in, StandsIn};
ghost use Rattle.wat_images.specs.Refusal.{IfDamaged, IfPageLimit, page_refusal};
ghost use Rattle.wat_images.specs.Reading.{AreWhole, SameImages, HasImages, image_in, CanAdd, AddsImages, ReadsFrames, IsCheckpointLog};

use crate::PageRefusal;
use crate::main_file::read_main;
use std::alloc::Global;
use std::collections::BTreeMap;
use wat_disk::{Disk, FileId};
use wat_gate::{GateLog, GatePlace, GateRefusal};
use wat_list::NoMemory;
use wat_slot::Page;

/// The file of the images.
const BEFORE: FileId = FileId(1);

/// How many bytes an image takes: the number of its page, and the page.
const IMAGE: usize = 4_100;

/// A checkpoint log, and the images in it by the numbers of their pages.
#[derive(Drop)]
pub struct CheckpointLog {
    pub log: GateLog,
    pub images: BTreeMap<u32, Page>,
}

// Puts the image in these bytes among the images; `false` where its page has one. The images are of use after `true` alone.
fn add_image(
    alloc: Global,
    bytes: &[u8],
    images: &mut BTreeMap<u32, Page>,
) -> Result<bool, NoMemory>
    requires { length bytes.now ≡ 4100 }
    ensures added { (before : List (ℕ × List ℕ)) → HasImages images.old.entries before → IfOk result (λ added. OnTrue added (HasImages images.new.entries (before ++ image_in bytes.now ∷ []))) }
    ensures there { (before : List (ℕ × List ℕ)) → HasImages images.old.entries before → IfOk result (λ added. OnFalse added (IsDistinct nat_eq (keys_of (before ++ image_in bytes.now ∷ [])) → ⊥)) }
    ensures whole { AreWhole images.old.entries → OnOk result (AreWhole images.new.entries) }
{
    let page = u32::from_be_bytes([bytes[0], bytes[1], bytes[2], bytes[3]]);
    if images.contains_key(&page) {
        return Ok(false);
    }
    let held = Page::of(alloc, &bytes[4..])?;
    images.insert(page, held)?;
    Ok(true)
}

// Puts the images of a frame's body among the images; `false` where the body is no whole images, or has a page that comes
// twice. The images are of use after `true` alone.
fn read_body(alloc: Global, body: &[u8], images: &mut BTreeMap<u32, Page>) -> Result<bool, NoMemory>
    ensures read { (before : List (ℕ × List ℕ)) → HasImages images.old.entries before → IfOk result (λ read. OnTrue read (AddsImages before body.now images.new.entries)) }
    ensures none { (before : List (ℕ × List ℕ)) → HasImages images.old.entries before → IfOk result (λ read. OnFalse read (CanAdd before body.now → ⊥)) }
    ensures whole { AreWhole images.old.entries → OnOk result (AreWhole images.new.entries) }
{
    if body.len() % IMAGE != 0 {
        return Ok(false);
    }
    for i in 0..body.len() / IMAGE {
        let at = IMAGE * i;
        if !add_image(alloc, &body[at..at + IMAGE], images)? {
            return Ok(false);
        }
    }
    Ok(true)
}

fn refusal_of(refusal: GateRefusal) -> PageRefusal
    ensures { result ≡ page_refusal refusal }
{
    match refusal {
        GateRefusal::DiskFault => PageRefusal::DiskFault,
        GateRefusal::Damaged { at } => PageRefusal::Damaged { file: BEFORE, at },
        GateRefusal::Memory => PageRefusal::Memory,
    }
}

// Puts the images of the frame at a gate among the images, and answers the next gate. `body` is room for the frame's body.
fn read_frame<D: Disk>(
    alloc: Global,
    disk: &mut D,
    log: &GateLog,
    place: GatePlace,
    body: &mut Vec<u8>,
    images: &mut BTreeMap<u32, Page>,
) -> Result<GatePlace, PageRefusal>
    requires known { D.tells_content → IsLogOf (D.told disk.old) log.now }
    requires place { D.tells_content → IsGateOf (D.told disk.old) log.now place }
    requires frame { place.gate < frames_of log.now }
    requires so_far { D.tells_content → ReadsFrames (take place.gate (bodies_in (D.told disk.old) log.now)) images.old.entries }
    requires whole { AreWhole images.old.entries }

    ensures read { D.tells_content → IfOk result (λ next. ReadsFrames (take next.gate (bodies_in (D.told disk.new) log.now)) images.new.entries) }
    ensures next { D.tells_content → IfOk result (λ next. IsGateOf (D.told disk.new) log.now next) }
    ensures one_more { IfOk result (λ next. next.gate ≡ place.gate + 1) }
    ensures whole { OnOk result (AreWhole images.new.entries) }
    ensures damaged { D.tells_content → IfErr result (λ refusal. IfDamaged refusal (λ file at. (file ≡ 1) × IsNoImageFrameAt ((D.told disk.old).content (file_of log.now)) at)) }
    ensures limited { IfErr result (λ refusal. IfPageLimit refusal (λ count limit. ⊥)) }

    ensures content { SameFiles (D.told disk.old).content (D.told disk.new).content }
    ensures stops { EachStop (D.told disk.old) (D.told disk.new) SameFiles }
    ensures cause { HasCause (D.told disk.old).faults (D.told disk.new).faults (result ≡ Err PageRefusal.DiskFault) }
{
    body.clear();
    let next = match log.frame_at(disk, place, body) {
        Ok(next) => next,
        Err(refusal) => return Err(refusal_of(refusal)),
    };
    match read_body(alloc, body, images) {
        Ok(true) => Ok(next),
        Ok(false) => Err(PageRefusal::Damaged {
            file: BEFORE,
            at: place.at,
        }),
        Err(_) => Err(PageRefusal::Memory),
    }
}

// The images of all frames in order, one body in memory at a time.
fn read_images<D: Disk>(
    alloc: Global,
    disk: &mut D,
    log: &GateLog,
) -> Result<BTreeMap<u32, Page>, PageRefusal>
    requires { D.tells_content → IsLogOf (D.told disk.old) log.now }

    ensures read { D.tells_content → IfOk result (λ images. ReadsFrames (bodies_in (D.told disk.old) log.now) images.entries) }
    ensures whole { IfOk result (λ images. AreWhole images.entries) }
    ensures damaged { D.tells_content → IfErr result (λ refusal. IfDamaged refusal (λ file at. (file ≡ 1) × IsNoImageFrameAt ((D.told disk.old).content (file_of log.now)) at)) }
    ensures limited { IfErr result (λ refusal. IfPageLimit refusal (λ count limit. ⊥)) }

    ensures content { SameFiles (D.told disk.old).content (D.told disk.new).content }
    ensures stops { EachStop (D.told disk.old) (D.told disk.new) SameFiles }
    ensures cause { HasCause (D.told disk.old).faults (D.told disk.new).faults (result ≡ Err PageRefusal.DiskFault) }
{
    let mut images = BTreeMap::new(alloc);
    let mut body = Vec::new(alloc);
    let mut place = GatePlace { gate: 0, at: 0 };
    while place.gate < log.frames() {
        place = match read_frame(alloc, disk, log, place, &mut body, &mut images) {
            Ok(next) => next,
            Err(refusal) => return Err(refusal),
        };
    }
    Ok(images)
}

/// Opens the before file, and reads the images in it. It writes nothing.
///
/// A gate log that is broken is `Damaged` at its broken gate, and else at the gate of the first frame whose body is no
/// whole images, or that has a page with an image before.
pub fn open_images<D: Disk>(alloc: Global, disk: &mut D) -> Result<CheckpointLog, PageRefusal>
    ensures opened { D.tells_content → IfOk result (IsCheckpointLog (D.told disk.new)) }
    ensures file { IfOk result (λ opened. file_of opened.log ≡ 1) }
    ensures whole { IfOk result (λ opened. AreWhole opened.images.entries) }
    ensures damaged { D.tells_content → IfErr result (λ refusal. IfDamaged refusal (λ file at. IsBrokenLog (D.told disk.old).content file at ⊎ HasNoImages (D.told disk.old).content file at)) }
    ensures limited { IfErr result (λ refusal. IfPageLimit refusal (λ count limit. ⊥)) }

    ensures content { SameFiles (D.told disk.old).content (D.told disk.new).content }
    ensures stops { EachStop (D.told disk.old) (D.told disk.new) SameFiles }
    ensures cause { HasCause (D.told disk.old).faults (D.told disk.new).faults (result ≡ Err PageRefusal.DiskFault) }
{
    let log = match GateLog::open(disk, BEFORE) {
        Ok(log) => log,
        Err(refusal) => return Err(refusal_of(refusal)),
    };
    match read_images(alloc, disk, &log) {
        Ok(images) => Ok(CheckpointLog { log, images }),
        Err(refusal) => Err(refusal),
    }
}

/// Reads a page as the last checkpoint has it: its image, or else from main. `Damaged` tells the place of a page that has
/// no image and isn't whole in main.
pub fn read_stored<D: Disk>(
    disk: &mut D,
    images: &BTreeMap<u32, Page>,
    page: u32,
    into: &mut [u8],
) -> Result<(), PageRefusal>
    requires long { length into.old ≡ 4096 }
    requires images { D.tells_content → SameImages images.now.entries (images_in ((D.told disk.old).content 1)) }

    ensures read { D.tells_content → OnOk result (StandsIn (D.told disk.old).content page into.new) }
    ensures damaged { D.tells_content → IfErr result (λ refusal. IfDamaged refusal (IsMissing (D.told disk.old).content page)) }
    ensures limited { IfErr result (λ refusal. IfPageLimit refusal (λ count limit. ⊥)) }
    ensures content { SameFiles (D.told disk.old).content (D.told disk.new).content }
    ensures stops { EachStop (D.told disk.old) (D.told disk.new) SameFiles }
    ensures cause { HasCause (D.told disk.old).faults (D.told disk.new).faults (result ≡ Err PageRefusal.DiskFault) }
{
    if let Some(image) = images.get(&page) {
        into.copy_from_slice(image.as_slice());
        return Ok(());
    }
    match read_main(disk, page, into) {
        Ok(()) => Ok(()),
        Err(refusal) => Err(refusal),
    }
}
