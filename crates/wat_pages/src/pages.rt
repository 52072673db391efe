// The pages of a database: changed in memory, and written to main in a checkpoint.
ghost use Rattle.std.specs.Prelude.{◌≡◌, ◌≢◌, ◌↔◌, ◌+◌, ◌*◌, ◌<◌, ◌≤◌, [], ℕ, List, length, nat_eq, OnOk, IfOk, IfErr, IsTrue};
ghost use Rattle.std.specs.Map.{lookup};
ghost use Rattle.wat_disk.specs.Disk.{SameFiles, EachStop};
ghost use Rattle.wat_faults.specs.Faults.{HasCause};
ghost use Rattle.wat_gate.specs.Bodies.{bodies};
ghost use Rattle.wat_restore.specs.Head.{Head};
ghost use Rattle.wat_restore.specs.Opening.{IsHeadIn, FailsAt, HasNoHead, IsMissing};
ghost use Rattle.wat_restore.specs.Restored.{images_in, IsImageLog, StandsIn, stored_page, Checkpoint, OnlyPages};
ghost use Rattle.wat_restore.specs.Safe.{IsSafe, Covers, CoversEither};
ghost use Rattle.wat_book.specs.Book.{next_in, page_taken, Owners, IsOwned, TakesPage, GivesPage, Writes, SameBook, SameButHeader};
ghost use Rattle.wat_images.specs.Reading.{AreWhole, SameImages};
ghost use Rattle.wat_images.specs.Refusal.{IfDamaged, IfPageLimit};
ghost use Rattle.wat_pages.specs.Header.{stored_head};
ghost use Rattle.wat_pages.specs.Held.{AreChanged};

use crate::header::{StoredHeader, free_page, header_in, next_of, page_of};
use crate::{Header, PageRefusal, Within};
use std::alloc::Global;
use std::collections::BTreeMap;
use wat_disk::{Disk, FileId};
use wat_gate::GateLog;
use wat_images::{CheckpointLog, lay_images, open_images, read_stored, save_checkpoint};
use wat_slot::Page;

/// The pages of a database, over the disk that each call is handed: the same one that the earlier calls were handed.
///
/// A changed page stands in memory until a checkpoint. The last checkpoint is what a stop leaves: its pages stand in main,
/// or as images in the before file, which the next checkpoint lays over main. After a refusal that is no `PageLimit` the
/// pages are not used again, and are opened anew.
#[derive(Drop)]
pub struct Pages {
    alloc: Global,
    before: GateLog,
    images: BTreeMap<u32, Page>,
    read: BTreeMap<u32, Page>,
    changed: BTreeMap<u32, Page>,
    header: Header,
    limit: u32,
    count: u32,
    first_free: u32,
    stored: u32,
    ghost before_file: { before.file.0 ≡ 1 },
    ghost are_images: { AreWhole images.entries },
    ghost are_changed: { AreChanged changed.entries stored count },
}

/// The header as the last checkpoint has it.
fn read_header<D: Disk>(
    alloc: Global,
    disk: &mut D,
    images: &BTreeMap<u32, Page>,
) -> Result<StoredHeader, PageRefusal>
    requires { D.tells_content → SameImages images.now.entries (images_in ((D.told disk.old).content 1)) }

    ensures head { D.tells_content → IfOk result (λ stored. IsHeadIn (D.told disk.old).content (stored_head stored)) }
    ensures two { IfOk result (λ stored. 2 ≤ stored.count) }
    ensures damaged { D.tells_content → IfErr result (λ refusal. IfDamaged refusal (λ file at. (file ≡ 0) × (at ≡ 0) × ((head : Head) → IsHeadIn (D.told disk.old).content head → ⊥))) }
    ensures limited { IfErr result (λ refusal. IfPageLimit refusal (λ count limit. ⊥)) }
    ensures content { SameFiles (D.told disk.old).content (D.told disk.new).content }
    ensures stops { EachStop (D.told disk.old) (D.told disk.new) SameFiles }
    ensures cause { HasCause (D.told disk.old).faults (D.told disk.new).faults (result ≡ Err PageRefusal.DiskFault) }
{
    let mut page = [0; 4096];
    match read_stored(disk, images, 0, &mut page) {
        Ok(()) => {}
        Err(refusal) => return Err(refusal),
    }
    match header_in(alloc, &page) {
        Ok(Some(stored)) => Ok(stored),
        Ok(None) => Err(PageRefusal::Damaged {
            file: FileId(0),
            at: 0,
        }),
        Err(_) => Err(PageRefusal::Memory),
    }
}

impl Pages {
    ghost use Rattle.wat_pages.specs.Within.{bound_of};
    ghost use Rattle.wat_pages.specs.Pages.{count_of, limit_of, first_free_of, header_of, stored_of, image_frames_of, page_in, IsPagesOf, SameHead, next_checkpoint, book_of, IsOpenedOf};

    /// Opens the pages of the last checkpoint: reads the images in the before file and the header. It writes nothing.
    ///
    /// `Damaged` tells the first place that fails: in the before file the gate at which it is broken as a gate log, else that
    /// of the first frame whose body is no whole images or that has a page with an image before; in main the header, at 0.
    pub fn open<D: Disk>(alloc: Global, disk: &mut D) -> Result<Pages, PageRefusal>
        ensures head { D.tells_content → IfOk result (λ pages. (head : Head) × IsHeadIn (D.told disk.old).content head × IsOpenedOf pages head) }
        ensures known { D.tells_content → IfOk result (IsPagesOf (D.told disk.new)) }

        // Each page that is in the files reads as it is there.
        ensures pages { D.tells_content → IfOk result (λ pages. (page : ℕ) (bytes : List ℕ) → StandsIn (D.told disk.old).content page bytes → page_in (D.told disk.new) pages page ≡ bytes) }

        ensures log { D.tells_content → OnOk result (IsImageLog ((D.told disk.old).content 1)) }

        // A page that isn't in the files reads as what they have at its place.
        ensures stored { D.tells_content → IfOk result (λ pages. (page : ℕ) → page_in (D.told disk.new) pages page ≡ stored_page (D.told disk.old).content page) }

        ensures damaged { D.tells_content → IfErr result (λ refusal. IfDamaged refusal (FailsAt (D.told disk.old).content)) }
        ensures limited { IfErr result (λ refusal. IfPageLimit refusal (λ count limit. ⊥)) }
        ensures content { SameFiles (D.told disk.old).content (D.told disk.new).content }
        ensures stops { EachStop (D.told disk.old) (D.told disk.new) SameFiles }
        ensures cause { HasCause (D.told disk.old).faults (D.told disk.new).faults (result ≡ Err PageRefusal.DiskFault) }
    {
        let CheckpointLog { log, images } = match open_images(alloc, disk) {
            Ok(opened) => opened,
            Err(refusal) => return Err(refusal),
        };
        match read_header(alloc, disk, &images) {
            Ok(stored) => Ok(Pages {
                alloc,
                before: log,
                images,
                read: BTreeMap::new(alloc),
                changed: BTreeMap::new(alloc),
                header: stored.header,
                limit: stored.limit,
                count: stored.count,
                first_free: stored.first_free,
                stored: stored.count,
            }),
            Err(refusal) => Err(refusal),
        }
    }

    /// The count of pages now.
    pub fn count(&self) -> u32
        ensures { result ≡ count_of self.now }
    {
        self.count
    }

    /// The stored limit: how many pages `new_page` may make of them within `Within::Limit`.
    pub fn limit(&self) -> u32
        ensures { result ≡ limit_of self.now }
    {
        self.limit
    }

    /// The first free page now, or 0.
    pub fn first_free(&self) -> u32
        ensures { result ≡ first_free_of self.now }
    {
        self.first_free
    }

    /// The header of the last checkpoint.
    pub fn header(&self) -> &Header
        ensures { result.now ≡ header_of self.now }
    {
        &self.header
    }

    /// Whether a stop in a checkpoint has left images. Then a checkpoint is due, which lays them over main.
    pub fn has_images(&self) -> bool
        ensures { IsTrue result ↔ (0 < image_frames_of self.now) }
    {
        self.before.frames() > 0
    }

    /// Reads a page: what the last write of it wrote.
    #[tactic(auto, unfolding(crate::specs::Pages::page_in))]
    pub fn read_page<D: Disk>(
        &mut self,
        disk: &mut D,
        page: u32,
        into: &mut Page,
    ) -> Result<(), PageRefusal>
        requires known { D.tells_content → IsPagesOf (D.told disk.old) self.old }
        requires page { page < count_of self.old }

        ensures read { D.tells_content → OnOk result (into.new ≡ page_in (D.told disk.old) self.old page) }
        ensures same { SameHead self.old self.new }
        ensures pages { D.tells_content → OnOk result (SameBook (book_of (D.told disk.old) self.old) (book_of (D.told disk.new) self.new)) }
        ensures known { D.tells_content → OnOk result (IsPagesOf (D.told disk.new) self.new) }
        ensures others { OnlyPages (D.told disk.old).content (D.told disk.new).content }

        // Where a stop leaves a checkpoint before the call, it leaves that one during it and after it.
        ensures stops { D.tells_content → (saved : Checkpoint) → IsSafe saved (D.told disk.old) → EachStop (D.told disk.old) (D.told disk.new) (Covers saved) }
        ensures safe { D.tells_content → (saved : Checkpoint) → IsSafe saved (D.told disk.old) → OnOk result (IsSafe saved (D.told disk.new)) }

        // Only a page of the last checkpoint that isn't in the files is damaged.
        ensures damaged { D.tells_content → IfErr result (λ refusal. IfDamaged refusal (λ file at. (page < stored_of self.old) × IsMissing (D.told disk.old).content page file at)) }
        ensures cut { D.tells_content → IfErr result (λ refusal. IfDamaged refusal (λ file at. length (page_in (D.told disk.old) self.old page) ≢ 4096)) }
        ensures undamaged { D.tells_content → (saved : Checkpoint) → IsSafe saved (D.told disk.old) → saved.count ≡ stored_of self.old → IfErr result (λ refusal. IfDamaged refusal (λ file at. ⊥)) }
        ensures limited { IfErr result (λ refusal. IfPageLimit refusal (λ count limit. ⊥)) }
        ensures cause { HasCause (D.told disk.old).faults (D.told disk.new).faults (result ≡ Err PageRefusal.DiskFault) }
    {
        if let Some(bytes) = self.changed.get(&page) {
            into.copy_from(bytes.as_slice());
            return Ok(());
        }
        if let Some(bytes) = self.read.get(&page) {
            into.copy_from(bytes.as_slice());
            return Ok(());
        }
        let mut bytes = [0; 4096];
        read_stored(disk, &self.images, page, &mut bytes)?;
        into.copy_from(&bytes);
        let held = Page::of(self.alloc, &bytes)?;
        self.read.insert(page, held)?;
        Ok(())
    }

    /// Writes a page that is in use, from 1 on.
    pub fn write_page<D: Disk>(
        &mut self,
        disk: &mut D,
        page: u32,
        from: &Page,
    ) -> Result<(), PageRefusal>
        requires known { D.tells_content → IsPagesOf (D.told disk.old) self.old }
        requires not_header { 1 ≤ page }
        requires page { page < count_of self.old }

        ensures written { D.tells_content → OnOk result (Writes page from.now (book_of (D.told disk.old) self.old) (book_of (D.told disk.new) self.new)) }
        ensures same { SameHead self.old self.new }
        ensures known { D.tells_content → OnOk result (IsPagesOf (D.told disk.new) self.new) }
        ensures others { OnlyPages (D.told disk.old).content (D.told disk.new).content }

        // Where a stop leaves a checkpoint before the call, it leaves that one during it and after it.
        ensures stops { D.tells_content → (saved : Checkpoint) → IsSafe saved (D.told disk.old) → EachStop (D.told disk.old) (D.told disk.new) (Covers saved) }
        ensures safe { D.tells_content → (saved : Checkpoint) → IsSafe saved (D.told disk.old) → OnOk result (IsSafe saved (D.told disk.new)) }

        ensures undamaged { D.tells_content → (saved : Checkpoint) → IsSafe saved (D.told disk.old) → saved.count ≡ stored_of self.old → IfErr result (λ refusal. IfDamaged refusal (λ file at. ⊥)) }
        ensures limited { IfErr result (λ refusal. IfPageLimit refusal (λ count limit. ⊥)) }
        ensures cause { HasCause (D.told disk.old).faults (D.told disk.new).faults (result ≡ Err PageRefusal.DiskFault) }
    {
        let held = Page::of(self.alloc, from.as_slice())?;
        self.changed.insert(page, held)?;
        Ok(())
    }

    /// A page more, of zeros.
    fn add_page(&mut self, within: Within) -> Result<u32, PageRefusal>
        ensures page { IfOk result (λ page. page ≡ count_of self.old) }
        ensures some { 0 < count_of self.old }
        ensures grows { count_of self.old ≤ count_of self.new }
        ensures count { OnOk result (count_of self.new ≡ count_of self.old + 1) }
        ensures limit { limit_of self.new ≡ limit_of self.old }
        ensures free { first_free_of self.new ≡ first_free_of self.old }
        ensures stored { stored_of self.new ≡ stored_of self.old }
        ensures header { header_of self.new ≡ header_of self.old }
        ensures pages { (page : ℕ) → page < count_of self.old → lookup (nat_eq page) self.new.changed.entries ≡ lookup (nat_eq page) self.old.changed.entries }
        ensures images { self.new.images ≡ self.old.images }
        ensures read { self.new.read ≡ self.old.read }
        ensures before { self.new.before ≡ self.old.before }
        ensures fault { result ≢ Err PageRefusal.DiskFault }
        ensures undamaged { IfErr result (λ refusal. IfDamaged refusal (λ file at. ⊥)) }
        ensures limited { IfErr result (λ refusal. IfPageLimit refusal (λ count limit. (count ≡ count_of self.old) × (limit ≡ bound_of within self.old) × (limit ≤ count))) }
        ensures within { OnOk result (count_of self.old < bound_of within self.old) }
        ensures at_limit { bound_of within self.old ≤ count_of self.old → result ≡ Err (PageRefusal.PageLimit (count_of self.old) (bound_of within self.old)) }
        ensures unchanged { bound_of within self.old ≤ count_of self.old → self.new ≡ self.old }
    {
        let bound = match within {
            Within::Limit => self.limit,
            Within::Any => u32::MAX,
        };
        let page = self.count;
        if page >= bound {
            return Err(PageRefusal::PageLimit {
                count: page,
                limit: bound,
            });
        }
        let held = Page::new(self.alloc)?;
        self.changed.insert(page, held)?;
        self.count = page + 1;
        Ok(page)
    }

    /// Hands out a page: the first free one, which keeps its bytes, or else a new one behind all others. It answers `PageLimit`
    /// exactly where no page is free and the count has reached the bound, and then nothing is changed.
    #[tactic(auto, unfolding(crate::specs::Pages::page_in))]
    pub fn new_page<D: Disk>(&mut self, disk: &mut D, within: Within) -> Result<u32, PageRefusal>
        requires known { D.tells_content → IsPagesOf (D.told disk.old) self.old }

        ensures page { IfOk result (λ page. page ≡ page_taken (book_of (D.told disk.old) self.old)) }
        ensures taken { D.tells_content → OnOk result (TakesPage (book_of (D.told disk.old) self.old) (book_of (D.told disk.new) self.new)) }
        ensures numbered { IfOk result (λ page. (0 < page) × (page < count_of self.new)) }
        ensures grows { count_of self.old ≤ count_of self.new }
        ensures limit { limit_of self.new ≡ limit_of self.old }
        ensures stored { stored_of self.new ≡ stored_of self.old }
        ensures header { header_of self.new ≡ header_of self.old }
        ensures known { D.tells_content → OnOk result (IsPagesOf (D.told disk.new) self.new) }
        ensures others { OnlyPages (D.told disk.old).content (D.told disk.new).content }

        // Where a stop leaves a checkpoint before the call, it leaves that one during it and after it.
        ensures stops { D.tells_content → (saved : Checkpoint) → IsSafe saved (D.told disk.old) → EachStop (D.told disk.old) (D.told disk.new) (Covers saved) }
        ensures safe { D.tells_content → (saved : Checkpoint) → IsSafe saved (D.told disk.old) → OnOk result (IsSafe saved (D.told disk.new)) }

        ensures limited { IfErr result (λ refusal. IfPageLimit refusal (λ count limit. (first_free_of self.old ≡ 0) × (count ≡ count_of self.old) × (limit ≡ bound_of within self.old) × (limit ≤ count))) }
        ensures within { OnOk result (first_free_of self.old ≡ 0 → count_of self.old < bound_of within self.old) }
        ensures at_limit { first_free_of self.old ≡ 0 → bound_of within self.old ≤ count_of self.old → result ≡ Err (PageRefusal.PageLimit (count_of self.old) (bound_of within self.old)) }
        ensures unchanged { first_free_of self.old ≡ 0 → bound_of within self.old ≤ count_of self.old → self.new ≡ self.old }
        ensures untouched { first_free_of self.old ≡ 0 → bound_of within self.old ≤ count_of self.old → disk.new ≡ disk.old }
        ensures undamaged { D.tells_content → (saved : Checkpoint) (owners : Owners) (free : List ℕ) → IsSafe saved (D.told disk.old) → saved.count ≡ stored_of self.old → IsOwned (book_of (D.told disk.old) self.old) owners free → IfErr result (λ refusal. IfDamaged refusal (λ file at. ⊥)) }
        ensures cause { HasCause (D.told disk.old).faults (D.told disk.new).faults (result ≡ Err PageRefusal.DiskFault) }
    {
        if self.first_free == 0 {
            return self.add_page(within);
        }
        self.take_free(disk)
    }

    /// The first free page, which is free no more.
    fn take_free<D: Disk>(&mut self, disk: &mut D) -> Result<u32, PageRefusal>
        requires known { D.tells_content → IsPagesOf (D.told disk.old) self.old }

        ensures page { IfOk result (λ page. page ≡ first_free_of self.old) }
        ensures free { D.tells_content → OnOk result (first_free_of self.new ≡ next_in (page_in (D.told disk.old) self.old (first_free_of self.old))) }
        ensures below { IfOk result (λ page. page < count_of self.old) }
        ensures count { count_of self.new ≡ count_of self.old }
        ensures limit { limit_of self.new ≡ limit_of self.old }
        ensures stored { stored_of self.new ≡ stored_of self.old }
        ensures header { header_of self.new ≡ header_of self.old }
        ensures pages { D.tells_content → OnOk result ((page : ℕ) → page < count_of self.old → page_in (D.told disk.new) self.new page ≡ page_in (D.told disk.old) self.old page) }
        ensures known { D.tells_content → OnOk result (IsPagesOf (D.told disk.new) self.new) }
        ensures others { OnlyPages (D.told disk.old).content (D.told disk.new).content }
        ensures stops { D.tells_content → (saved : Checkpoint) → IsSafe saved (D.told disk.old) → EachStop (D.told disk.old) (D.told disk.new) (Covers saved) }
        ensures safe { D.tells_content → (saved : Checkpoint) → IsSafe saved (D.told disk.old) → OnOk result (IsSafe saved (D.told disk.new)) }
        ensures limited { IfErr result (λ refusal. IfPageLimit refusal (λ count limit. ⊥)) }
        ensures undamaged { D.tells_content → (saved : Checkpoint) → IsSafe saved (D.told disk.old) → saved.count ≡ stored_of self.old → first_free_of self.old < count_of self.old → IfErr result (λ refusal. IfDamaged refusal (λ file at. ⊥)) }
        ensures cause { HasCause (D.told disk.old).faults (D.told disk.new).faults (result ≡ Err PageRefusal.DiskFault) }
    {
        let page = self.first_free;
        if page >= self.count {
            return Err(PageRefusal::Damaged {
                file: FileId(0),
                at: 4096 * u64::from(page),
            });
        }
        let mut bytes = Page::new(self.alloc)?;
        self.read_page(disk, page, &mut bytes)?;
        self.first_free = next_of(&bytes);
        Ok(page)
    }

    /// Takes back a page that is in use, from 1 on. It is the first free one then, and tells the one that was first.
    pub fn free_page<D: Disk>(&mut self, disk: &mut D, page: u32) -> Result<(), PageRefusal>
        requires known { D.tells_content → IsPagesOf (D.told disk.old) self.old }
        requires not_header { 1 ≤ page }
        requires page { page < count_of self.old }

        ensures given { D.tells_content → OnOk result (GivesPage page (book_of (D.told disk.old) self.old) (book_of (D.told disk.new) self.new)) }
        ensures count { count_of self.new ≡ count_of self.old }
        ensures limit { limit_of self.new ≡ limit_of self.old }
        ensures stored { stored_of self.new ≡ stored_of self.old }
        ensures header { header_of self.new ≡ header_of self.old }
        ensures known { D.tells_content → OnOk result (IsPagesOf (D.told disk.new) self.new) }
        ensures others { OnlyPages (D.told disk.old).content (D.told disk.new).content }

        // Where a stop leaves a checkpoint before the call, it leaves that one during it and after it.
        ensures stops { D.tells_content → (saved : Checkpoint) → IsSafe saved (D.told disk.old) → EachStop (D.told disk.old) (D.told disk.new) (Covers saved) }
        ensures safe { D.tells_content → (saved : Checkpoint) → IsSafe saved (D.told disk.old) → OnOk result (IsSafe saved (D.told disk.new)) }

        ensures undamaged { D.tells_content → (saved : Checkpoint) → IsSafe saved (D.told disk.old) → saved.count ≡ stored_of self.old → IfErr result (λ refusal. IfDamaged refusal (λ file at. ⊥)) }
        ensures limited { IfErr result (λ refusal. IfPageLimit refusal (λ count limit. ⊥)) }
        ensures cause { HasCause (D.told disk.old).faults (D.told disk.new).faults (result ≡ Err PageRefusal.DiskFault) }
    {
        let freed = free_page(self.alloc, self.first_free)?;
        self.write_page(disk, page, &freed)?;
        self.first_free = page;
        Ok(())
    }

    /// What a stop in a checkpoint has left becomes as the last checkpoint was: its images are laid over main.
    fn lay<D: Disk>(&mut self, disk: &mut D) -> Result<(), PageRefusal>
        requires known { D.tells_content → IsPagesOf (D.told disk.old) self.old }

        ensures none { D.tells_content → OnOk result (bodies ((D.told disk.new).content 1) ≡ []) }
        ensures pages { D.tells_content → (saved : Checkpoint) → IsSafe saved (D.told disk.old) → saved.count ≡ stored_of self.old
            → OnOk result ((page : ℕ) → page < count_of self.old → page_in (D.told disk.new) self.new page ≡ page_in (D.told disk.old) self.old page) }
        ensures same { SameHead self.old self.new }
        ensures known { D.tells_content → OnOk result (IsPagesOf (D.told disk.new) self.new) }
        ensures others { OnlyPages (D.told disk.old).content (D.told disk.new).content }
        ensures stops { D.tells_content → (saved : Checkpoint) → IsSafe saved (D.told disk.old) → EachStop (D.told disk.old) (D.told disk.new) (Covers saved) }
        ensures safe { D.tells_content → (saved : Checkpoint) → IsSafe saved (D.told disk.old) → OnOk result (IsSafe saved (D.told disk.new)) }
        ensures undamaged { IfErr result (λ refusal. IfDamaged refusal (λ file at. ⊥)) }
        ensures limited { IfErr result (λ refusal. IfPageLimit refusal (λ count limit. ⊥)) }
        ensures cause { HasCause (D.told disk.old).faults (D.told disk.new).faults (result ≡ Err PageRefusal.DiskFault) }
    {
        if self.before.frames() == 0 {
            return Ok(());
        }
        lay_images(disk, &mut self.before, &self.images)?;
        self.images.clear();
        self.read.clear();
        Ok(())
    }

    /// Makes the pages now the checkpoint, where no images are left.
    fn save<D: Disk>(&mut self, disk: &mut D, header: &Header) -> Result<(), PageRefusal>
        requires known { D.tells_content → IsPagesOf (D.told disk.old) self.old }
        requires none { D.tells_content → bodies ((D.told disk.old).content 1) ≡ [] }

        ensures none { D.tells_content → OnOk result (bodies ((D.told disk.new).content 1) ≡ []) }
        ensures header { OnOk result (header_of self.new ≡ header.now) }
        ensures count { OnOk result (count_of self.new ≡ count_of self.old) }
        ensures stored { OnOk result (stored_of self.new ≡ count_of self.old) }
        ensures free { OnOk result (first_free_of self.new ≡ first_free_of self.old) }
        ensures limit { limit_of self.new ≡ limit_of self.old }
        ensures known { D.tells_content → OnOk result (IsPagesOf (D.told disk.new) self.new) }
        ensures others { OnlyPages (D.told disk.old).content (D.told disk.new).content }
        ensures stops { D.tells_content → (saved : Checkpoint) → IsSafe saved (D.told disk.old) → saved.count ≡ stored_of self.old
            → EachStop (D.told disk.old) (D.told disk.new) (CoversEither saved (next_checkpoint (D.told disk.old) self.old header.now)) }
        ensures safe { D.tells_content → (saved : Checkpoint) → IsSafe saved (D.told disk.old) → saved.count ≡ stored_of self.old
            → OnOk result (IsSafe (next_checkpoint (D.told disk.old) self.old header.now) (D.told disk.new)) }
        ensures pages { D.tells_content → (saved : Checkpoint) → IsSafe saved (D.told disk.old) → saved.count ≡ stored_of self.old
            → OnOk result ((page : ℕ) → 1 ≤ page → page < count_of self.old → page_in (D.told disk.new) self.new page ≡ page_in (D.told disk.old) self.old page) }
        ensures undamaged { D.tells_content → (saved : Checkpoint) → IsSafe saved (D.told disk.old) → saved.count ≡ stored_of self.old → IfErr result (λ refusal. IfDamaged refusal (λ file at. ⊥)) }
        ensures limited { IfErr result (λ refusal. IfPageLimit refusal (λ count limit. ⊥)) }
        ensures cause { HasCause (D.told disk.old).faults (D.told disk.new).faults (result ≡ Err PageRefusal.DiskFault) }
    {
        let page = page_of(self.alloc, header, self.limit, self.count, self.first_free)?;
        save_checkpoint(
            self.alloc,
            disk,
            &mut self.before,
            &self.changed,
            self.stored,
            &page,
        )?;
        self.changed.clear();
        self.read.clear();
        self.stored = self.count;
        self.header = *header;
        Ok(())
    }

    /// Makes the pages now, with this header, the checkpoint.
    ///
    /// Images that a stop has left are laid over main first. Then the images of all changed pages that the last checkpoint
    /// had are saved, the pages and the header written, main synced, and the images cleared.
    pub fn checkpoint<D: Disk>(&mut self, disk: &mut D, header: &Header) -> Result<(), PageRefusal>
        requires known { D.tells_content → IsPagesOf (D.told disk.old) self.old }

        // A stop at any moment leaves the last checkpoint or the new one, and after the call the new one.
        ensures stops { D.tells_content → (saved : Checkpoint) → IsSafe saved (D.told disk.old) → saved.count ≡ stored_of self.old
            → EachStop (D.told disk.old) (D.told disk.new) (CoversEither saved (next_checkpoint (D.told disk.old) self.old header.now)) }
        ensures safe { D.tells_content → (saved : Checkpoint) → IsSafe saved (D.told disk.old) → saved.count ≡ stored_of self.old
            → OnOk result (IsSafe (next_checkpoint (D.told disk.old) self.old header.now) (D.told disk.new)) }

        // The before file has no images then, and the header is the one that was given.
        ensures none { D.tells_content → OnOk result (bodies ((D.told disk.new).content 1) ≡ []) }
        ensures header { OnOk result (header_of self.new ≡ header.now) }
        ensures stored { OnOk result (stored_of self.new ≡ count_of self.old) }
        ensures limit { limit_of self.new ≡ limit_of self.old }

        // All pages but the header's have the bytes from before.
        ensures pages { D.tells_content → (saved : Checkpoint) → IsSafe saved (D.told disk.old) → saved.count ≡ stored_of self.old
            → OnOk result (SameButHeader (book_of (D.told disk.old) self.old) (book_of (D.told disk.new) self.new)) }
        ensures known { D.tells_content → OnOk result (IsPagesOf (D.told disk.new) self.new) }
        ensures others { OnlyPages (D.told disk.old).content (D.told disk.new).content }
        ensures undamaged { D.tells_content → (saved : Checkpoint) → IsSafe saved (D.told disk.old) → saved.count ≡ stored_of self.old → IfErr result (λ refusal. IfDamaged refusal (λ file at. ⊥)) }
        ensures limited { IfErr result (λ refusal. IfPageLimit refusal (λ count limit. ⊥)) }
        ensures cause { HasCause (D.told disk.old).faults (D.told disk.new).faults (result ≡ Err PageRefusal.DiskFault) }
    {
        match self.lay(disk) {
            Ok(()) => {}
            Err(refusal) => return Err(refusal),
        }
        match self.save(disk, header) {
            Ok(()) => Ok(()),
            Err(refusal) => Err(refusal),
        }
    }
}
