// What a stop leaves of a disk in memory, told from the record of its acts.
ghost use Rattle.std.specs.Prelude.{◌≡◌, ◌+◌, ◌<◌, ◌≤◌, ◌^◌, ℕ, [], ◌∷◌, ◌==◌, if◌then◌else◌, length, replicate, All, IfOk, OnOk};
ghost use Rattle.wat_disk.specs.Bytes.{written};
ghost use Rattle.wat_disk.specs.Acts.{content_after};
ghost use Rattle.wat_disk.specs.Memory.{bytes_at, count_of, act_of, acts_until};
ghost use Rattle.wat_disk.specs.Kept.{count_all, IsUsable};
ghost use Rattle.wat_disk.specs.Picks.{pick_written, pick_next, picked_after};

use crate::bytes::overwrite;
use crate::memory::{Deed, Entry, bytes_of, copy_with_room, eight_copies};
use std::alloc::{AllocError, Global};

/// Which of what a stop may leave it leaves, of all that was written since each file's last sync. Bytes that were written
/// more than once go back to that sync.
#[derive(Clone, Copy, Debug, PartialEq, Eq)]
pub enum Pick {
    /// What the writes replaced, and the old length.
    Old,
    /// What was written.
    New,
    /// This byte in place of each, and of the zeros in a gap; the length is the new one.
    Torn(u8),
}

fn repeated(alloc: Global, byte: u8, count: usize) -> Result<Vec<u8>, AllocError>
    ensures { IfOk result (λ bytes. bytes.items ≡ replicate count byte) }
{
    vec![in alloc; byte; count]
}

// Writes at a place; zeros fill a gap before it.
fn write_growing(held: &mut Vec<u8>, at: usize, bytes: &[u8]) -> Result<(), AllocError>
    requires { at + length bytes.now < 2 ^ 64 }
    ensures { OnOk result (held.new.items ≡ written held.old.items at bytes.now) }
{
    held.reserve((at + bytes.len()).saturating_sub(held.len()))?;
    overwrite(held, at, bytes);
    Ok(())
}

fn write_into(files: &mut Vec<Vec<u8>>, file: u8, at: usize, bytes: &[u8]) -> Result<(), AllocError>
    requires file { file < length files.old.items }
    requires range { at + length bytes.now < 2 ^ 64 }
    ensures files { OnOk result ((other : ℕ) → bytes_at files.new.items other ≡ (if other == file then written (bytes_at files.old.items other) at bytes.now else bytes_at files.old.items other)) }
    ensures as_many { length files.new.items ≡ length files.old.items }
{
    write_growing(&mut files[file as usize], at, bytes)?;
    Ok(())
}

// Leaves of a write what is picked.
fn pick_write(
    alloc: Global,
    files: &mut Vec<Vec<u8>>,
    file: u8,
    at: usize,
    bytes: &[u8],
    pick: Pick,
) -> Result<(), AllocError>
    requires file { file < length files.old.items }
    requires range { at + length bytes.now < 2 ^ 64 }
    ensures files { OnOk result ((other : ℕ) → bytes_at files.new.items other ≡ (if other == file then pick_written pick (bytes_at files.old.items other) at bytes.now else bytes_at files.old.items other)) }
    ensures as_many { length files.new.items ≡ length files.old.items }
{
    match pick {
        Pick::Old => Ok(()),
        Pick::New => write_into(files, file, at, bytes),
        Pick::Torn(byte) => {
            let from = at.min(bytes_of(files, file as usize).len());
            let torn = repeated(alloc, byte, at + bytes.len() - from)?;
            write_into(files, file, from, &torn)
        }
    }
}

// A file as it reads, in place of what was left of it.
fn pick_synced(
    alloc: Global,
    content: &[Vec<u8>],
    left: &mut Vec<Vec<u8>>,
    file: u8,
) -> Result<(), AllocError>
    requires { file < length left.old.items }
    ensures files { OnOk result ((other : ℕ) → bytes_at left.new.items other ≡ (if other == file then bytes_at content.now other else bytes_at left.old.items other)) }
    ensures as_many { length left.new.items ≡ length left.old.items }
{
    let held = copy_with_room(alloc, bytes_of(content, file as usize), 0)?;
    left[file as usize] = held;
    Ok(())
}

// One act more, whose bytes come first.
fn replay_entry(
    alloc: Global,
    content: &mut Vec<Vec<u8>>,
    left: &mut Vec<Vec<u8>>,
    entry: Entry,
    bytes: &[u8],
    pick: Pick,
) -> Result<(), AllocError>
    requires content_eight { length content.old.items ≡ 8 }
    requires left_eight { length left.old.items ≡ 8 }
    requires usable { IsUsable entry }
    requires bytes { count_of entry.deed ≤ length bytes.now }
    ensures content { OnOk result ((file : ℕ) → bytes_at content.new.items file ≡ content_after (bytes_at content.old.items) (act_of entry.file entry.deed bytes.now ∷ []) file) }
    ensures left { OnOk result ((file : ℕ) → bytes_at left.new.items file ≡ pick_next pick (bytes_at content.old.items) (bytes_at left.old.items) (act_of entry.file entry.deed bytes.now) file) }
    ensures content_eight { length content.new.items ≡ 8 }
    ensures left_eight { length left.new.items ≡ 8 }
{
    match entry.deed {
        Deed::Write { at, count } => {
            let written = &bytes[..count];
            write_into(content, entry.file, at as usize, written)?;
            pick_write(alloc, left, entry.file, at as usize, written, pick)
        }
        Deed::Sync => pick_synced(alloc, content, left, entry.file),
    }
}

/// The eight files that a stop at this moment leaves by this pick.
pub fn left_at(
    alloc: Global,
    base: &[Vec<u8>],
    entries: &[Entry],
    kept: &[u8],
    moment: u64,
    pick: Pick,
) -> Result<Vec<Vec<u8>>, AllocError>
    requires eight { length base.now ≡ 8 }
    requires usable { All IsUsable entries.now }
    requires kept { length kept.now ≡ count_all entries.now }
    ensures left { IfOk result (λ files. (file : ℕ) → bytes_at files.items file ≡ picked_after pick (bytes_at base.now) (acts_until moment [] entries.now kept.now) file) }
    ensures eight { IfOk result (λ files. length files.items ≡ 8) }
{
    let mut content = eight_copies(alloc, base, 0)?;
    let mut left = eight_copies(alloc, base, 0)?;
    let mut rest = kept;
    for entry in entries {
        if entry.moment <= moment {
            replay_entry(alloc, &mut content, &mut left, *entry, rest, pick)?;
        }
        let (_, behind) = rest.split_at(entry.deed.count());
        rest = behind;
    }
    Ok(left)
}
