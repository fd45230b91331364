// The entries of the page tables.
ghost use Rattle.std.specs.Prelude.{◌≡◌, ℕ, ◌+◌, ◌*◌, ◌/◌, ◌%◌, ◌^◌, ◌<◌, ◌≤◌, ◌==◌, ◌&&◌, ◌||◌, not, Bool, None, IfSome, bit_or};
ghost use Rattle.svm_model.specs.Memory.Bits.{bits_where, has_some};
ghost use Rattle.svm_model.specs.Memory.Bytes.{IsWithin, guest_of};
ghost use Rattle.svm_model.specs.Memory.PageEntries.{page_size, no_execute, above_width, below_large, below_huge, is_write, is_fetch, fault_code, index_at, is_reserved, is_leaf};
ghost use Rattle.svm_model.specs.Memory.PageTables.{checked_entry, entry_of, HasFrame};
ghost use Rattle.page_walk.specs.Lookups.{looked};

use crate::bits::EntryBits;
use bitflags::Flags;
use host_memory::{GuestWindow, HostMemory, Steps};
use std::sync::ledger::Ledger;
use svm_model::{Access, Entry, Kind, LinearPage, Paging, Walked};

/// The bits of the entry.
pub fn bits_of(entry: &Entry) -> EntryBits
    ensures { result.0 ≡ entry.now.bits }
{
    EntryBits::from_bits_retain(entry.bits)
}

/// Whether the access writes.
#[inline]
pub fn writes(access: &Access) -> bool
    ensures { result ≡ is_write access.now.kind }
{
    matches!(access.kind, Kind::Write)
}

/// Whether the access fetches an instruction.
#[inline]
pub fn fetches(access: &Access) -> bool
    ensures { result ≡ is_fetch access.now.kind }
{
    matches!(access.kind, Kind::Fetch)
}

fn code_where(test: bool, code: u32) -> u32
    ensures value { result ≡ bits_where test code }
    ensures bound { result ≤ code }
{
    if test { code } else { 0 }
}

/// A page fault, with the error code of volume 2, '#PF—Page-Fault Exception'.
#[cold]
pub fn page_fault(present: bool, reserved: bool, paging: &Paging, access: &Access) -> Walked
    ensures value { result ≡ Walked.PageFault (fault_code present reserved paging.now access.now) }
    ensures frame { HasFrame result }
{
    let code = code_where(present, 1)
        + code_where(writes(access), 2)
        + code_where(access.user, 4)
        + code_where(reserved, 8)
        + code_where(fetches(access) && paging.no_execute, 16);
    Walked::PageFault { code }
}

/// Which entry of a table of the level the page uses: nine bits of its number, 0 to 511.
pub fn index_of(page: LinearPage, level: u8) -> u64
    requires low { 1 ≤ level }
    requires high { level ≤ 4 }
    ensures value { result ≡ index_at level page.0 }
    ensures bound { result < 512 }
{
    (page.0 >> (9 * (level - 1))) % 512
}

/// Whether the entry ends the path.
pub fn ends_path(level: u8, entry: &Entry) -> bool
    ensures { result ≡ is_leaf level entry.now.bits }
{
    level == 1 || (bits_of(entry).contains(EntryBits::PAGE_SIZE) && level < 4)
}

fn bits_if(test: bool, bits: EntryBits) -> EntryBits
    ensures { result.0 ≡ bits_where test bits.0 }
{
    if test { bits } else { EntryBits::empty() }
}

/// The bits that are reserved in each entry of the level, whether or not it is the leaf of a large page.
#[inline]
fn reserved_bits(level: u8, paging: &Paging) -> EntryBits
    ensures { result.0 ≡ bit_or (bit_or above_width (bits_where (level == 4) page_size)) (bits_where (not paging.now.no_execute) no_execute) }
{
    EntryBits::ABOVE_WIDTH
        .union(bits_if(level == 4, EntryBits::PAGE_SIZE))
        .union(bits_if(!paging.no_execute, EntryBits::NO_EXECUTE))
}

/// Whether the leaf of a large page has a bit below the page's address. It stands apart, so that other entries pass by it.
#[inline(never)]
fn has_bit_below(level: u8, bits: EntryBits) -> bool
    ensures { result ≡ (((level == 3) && has_some bits.0 below_huge) || ((level == 2) && has_some bits.0 below_large)) }
{
    (level == 3 && bits.intersects(EntryBits::BELOW_HUGE))
        || (level == 2 && bits.intersects(EntryBits::BELOW_LARGE))
}

#[tactic(auto, using(crate::proofs::ReservedBits::masks))]
#[inline(always)]
fn has_reserved(level: u8, paging: &Paging, entry: &Entry) -> bool
    ensures { result ≡ is_reserved level paging.now entry.now.bits }
{
    let bits = bits_of(entry);
    if bits.intersects(reserved_bits(level, paging)) {
        return true;
    }
    let may_be_large = level == 2 || level == 3;
    may_be_large && bits.contains(EntryBits::PAGE_SIZE) && has_bit_below(level, bits)
}

/// What ends the walk at an entry of a table: it is not present, or has a reserved bit.
#[inline(always)]
fn fault_of(level: u8, paging: &Paging, access: &Access, entry: &Entry) -> Option<Walked>
    ensures entry { checked_entry level paging.now access.now entry.now.at entry.now.bits ≡ looked result entry.now }
    ensures frame { IfSome result HasFrame }
{
    if !bits_of(entry).contains(EntryBits::PRESENT) {
        Some(page_fault(false, false, paging, access))
    } else if has_reserved(level, paging, entry) {
        Some(page_fault(true, true, paging, access))
    } else {
        None
    }
}

/// An entry that a walk has looked up, and what ends the walk there. It is no `Result`, whose two sides share their bytes:
/// the numbers of the entry then stay whole in registers.
#[derive(Clone, Copy)]
pub struct Lookup {
    pub entry: Entry,
    pub end: Option<Walked>,
}

/// Reads the entry that the access uses of a table, by one read.
#[tactic(auto, unfolding(svm_model::specs::Memory::PageTables::entry_of))]
#[inline(always)]
pub fn look_up<L: Ledger>(
    memory: &HostMemory,
    window: GuestWindow,
    paging: &Paging,
    access: &Access,
    level: u8,
    table: u64,
    steps: &mut Steps<L>,
) -> Lookup
    requires window { IsWithin window memory.now.bytes }
    requires low { 1 ≤ level }
    requires high { level ≤ 4 }
    requires table { table < 2 ^ 40 }
    ensures entry { entry_of level (guest_of window memory.now.bytes) paging.now access.now table ≡ looked result.end result.entry }
    ensures inside { result.end ≡ None → result.entry.at + 8 ≤ window.size }
    ensures frame { IfSome result.end HasFrame }
    ensures steps { steps.new ≡ steps.old + 1 }
{
    let at = table + 8 * index_of(access.page, level);
    match memory.read_number(window, at, steps) {
        Ok(bits) => {
            let entry = Entry { at, bits };
            Lookup {
                entry,
                end: fault_of(level, paging, access, &entry),
            }
        }
        Err(outside) => Lookup {
            entry: Entry { at, bits: 0 },
            end: Some(Walked::Ended(outside)),
        },
    }
}
