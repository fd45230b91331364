// What the used entries from the root down to the leaf give together.
ghost use Rattle.std.specs.Prelude.{◌≡◌, ℕ, ◌^◌, ◌<◌, bit_and};
ghost use Rattle.svm_model.specs.Memory.PageEntries.{address};
ghost use Rattle.svm_model.specs.Memory.PageTables.{size_of, frame_in, leaf_of, allows, is_changed};
ghost use Rattle.page_walk.specs.PathBits.{Join};

use crate::bits::EntryBits;
use crate::entry::{fetches, writes};
use crate::path_bits::PathBits;
use bitflags::Flags;
use svm_model::{Access, Entry, Frame, Leaf, LinearPage, PageSize, Paging};

/// The address bits of an entry or of CR3.
#[inline]
pub fn address_in(bits: u64) -> u64
    ensures value { result ≡ bit_and bits address }
    ensures bound { result < 2 ^ 40 }
{
    bits & EntryBits::ADDRESS.bits()
}

fn size_for(count: usize) -> PageSize
    ensures { result ≡ size_of count }
{
    match count {
        4 => PageSize::Small,
        3 => PageSize::Large,
        _ => PageSize::Huge,
    }
}

/// The frame of the accessed page of 4 KiB: a larger page begins where its size divides the address, so the low bits
/// are the page number's.
fn frame_for(size: PageSize, first: u64, page: LinearPage) -> u64
    requires { first < 2 ^ 28 }
    ensures value { result ≡ frame_in size first page.0 }
    ensures bound { result < 2 ^ 28 }
{
    match size {
        PageSize::Small => first,
        PageSize::Large => first / 512 * 512 + page.0 % 512,
        PageSize::Huge => first / 262144 * 262144 + page.0 % 262144,
    }
}

/// The translation that the path gives.
#[tactic(auto, unfolding(svm_model::specs::Memory::PageTables::leaf_of))]
#[inline(always)]
pub fn leaf_at(paging: &Paging, access: &Access, path: &[Entry], bits: PathBits) -> Leaf
    requires { Join bits path.now }
    ensures leaf { result ≡ leaf_of paging.now access.now path.now }
    ensures frame { result.frame.0 < 2 ^ 28 }
{
    let size = size_for(path.len());
    let first = address_in(bits.leaf.bits()) / 4096;
    Leaf {
        frame: Frame(frame_for(size, first, access.page)),
        size,
        global: bits.leaf.contains(EntryBits::GLOBAL) && paging.page_global,
        writable: bits.common.contains(EntryBits::WRITABLE),
        user: bits.common.contains(EntryBits::USER),
        executable: !bits.joined.contains(EntryBits::NO_EXECUTE),
        dirty: bits.leaf.contains(EntryBits::DIRTY) || writes(access),
    }
}

/// Whether the leaf's rights allow the access (volume 2, 'Page-Protection Checks').
#[tactic(auto, unfolding(svm_model::specs::Memory::PageTables::allows))]
#[inline(always)]
pub fn is_allowed(paging: &Paging, access: &Access, leaf: &Leaf) -> bool
    ensures { result ≡ allows paging.now access.now leaf.now }
{
    let heeds_writable = access.user || paging.write_protect;
    (leaf.user || !access.user)
        && (leaf.writable || !writes(access) || !heeds_writable)
        && (leaf.executable || !fetches(access))
}

/// Whether an accessed bit, or the leaf's dirty bit at a write, is still to be set.
#[tactic(auto, unfolding(svm_model::specs::Memory::PageTables::is_changed))]
#[inline(always)]
pub fn is_new(access: &Access, path: &[Entry], bits: PathBits) -> bool
    requires { Join bits path.now }
    ensures { result ≡ is_changed access.now path.now }
{
    !bits.common.contains(EntryBits::ACCESSED)
        || (writes(access) && !bits.leaf.contains(EntryBits::DIRTY))
}
