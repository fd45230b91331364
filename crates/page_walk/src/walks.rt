// The walk: the path, the rights, and the bits that it sets.
ghost use Rattle.std.specs.Prelude.{◌≡◌, ℕ, ◌+◌, ◌≤◌, List, All};
ghost use Rattle.std.specs.Int.{w64, to_le_bytes};
ghost use Rattle.svm_model.specs.Memory.Bytes.{IsWithin, SameOutside, guest_of, put_at};
ghost use Rattle.svm_model.specs.Memory.Bits.{bits_where};
ghost use Rattle.svm_model.specs.Memory.NestedPaging.{as_nested};
ghost use Rattle.svm_model.specs.Memory.PageEntries.{accessed, dirty, is_write};
ghost use Rattle.svm_model.specs.Memory.PageTables.{marked, answered, HasFrame, walked};
ghost use Rattle.page_walk.specs.PathBits.{Join};

use crate::bits::EntryBits;
use crate::entry::{Lookup, bits_of, ends_path, look_up, page_fault, writes};
use crate::path::{address_in, is_allowed, is_new, leaf_at};
use crate::path_bits::{PathBits, bits_with, top_bits};
use bitflags::Flags;
use host_memory::{GuestWindow, HostMemory, Steps};
use std::sync::ledger::Ledger;
use svm_model::{Access, Entry, Nested, Paging, Walked};

/// Writes an entry where it lies in the guest's memory.
#[tactic(auto, using(svm_model::proofs::WindowLemmas::windows))]
pub fn write_entry(memory: &mut HostMemory, window: GuestWindow, at: u64, bits: EntryBits)
    requires window { IsWithin window memory.old.bytes }
    requires inside { at + 8 ≤ window.size }
    ensures written { guest_of window memory.new.bytes ≡ put_at (guest_of window memory.old.bytes) at (to_le_bytes w64 bits.0) }
    ensures others { SameOutside window memory.old memory.new }
{
    let [a, b, c, d, e, f, g, h] = bits.bits().to_le_bytes();
    let bytes = [a, b, c, d, e, f, g, h, 0, 0, 0, 0, 0, 0, 0, 0];
    let _ = memory.write_guest(window, at, &bytes, 8);
}

/// The bits that the access sets in the leaf.
pub fn leaf_marks(access: &Access) -> EntryBits
    ensures { result.0 ≡ accessed + bits_where (is_write access.now.kind) dirty }
{
    if writes(access) {
        EntryBits::ACCESSED.union(EntryBits::DIRTY)
    } else {
        EntryBits::ACCESSED
    }
}

/// Writes each entry of the path back as it was read, with the accessed bit, and in the leaf of a write with the dirty
/// bit. Entries may stand at one place where a table maps itself; the leaf is written last, so it keeps the dirty bit.
#[tactic(auto, using(svm_model::proofs::WindowLemmas::windows), unfolding(svm_model::specs::Memory::PageTables::marked))]
fn mark(memory: &mut HostMemory, window: GuestWindow, access: &Access, path: &[Entry])
    requires window { IsWithin window memory.old.bytes }
    requires inside { All (λ e. e.at + 8 ≤ window.size) path.now }
    ensures marked { guest_of window memory.new.bytes ≡ marked access.now (guest_of window memory.old.bytes) path.now }
    ensures others { SameOutside window memory.old memory.new }
{
    match path {
        [] => {}
        [leaf] => {
            write_entry(
                memory,
                window,
                leaf.at,
                bits_of(leaf).union(leaf_marks(access)),
            );
        }
        [entry, rest @ ..] => {
            write_entry(
                memory,
                window,
                entry.at,
                bits_of(entry).union(EntryBits::ACCESSED),
            );
            mark(memory, window, access, rest);
        }
    }
}

/// Marks the whole path. It stands apart, as few walks change a bit, so that the entries are laid into memory here alone.
#[cold]
#[inline(never)]
fn mark_all<const N: usize>(
    memory: &mut HostMemory,
    window: GuestWindow,
    access: &Access,
    path: [Entry; N],
)
    requires window { IsWithin window memory.old.bytes }
    requires inside { All (λ e. e.at + 8 ≤ window.size) path }
    ensures marked { guest_of window memory.new.bytes ≡ marked access.now (guest_of window memory.old.bytes) path.entry }
    ensures others { SameOutside window memory.old memory.new }
{
    mark(memory, window, access, &path);
}

/// Ends a walk that has read its whole path: a fault where the rights do not allow the access, else the leaf, and the bits
/// are set that are not set yet.
#[tactic(auto, using(svm_model::proofs::WindowLemmas::windows))]
#[inline(always)]
fn end_at_leaf<const N: usize>(
    memory: &mut HostMemory,
    window: GuestWindow,
    paging: &Paging,
    access: &Access,
    path: [Entry; N],
    bits: PathBits,
) -> Walked
    requires window { IsWithin window memory.old.bytes }
    requires inside { All (λ e. e.at + 8 ≤ window.size) path }
    requires bits { Join bits path }
    ensures answer { result ≡ (answered (guest_of window memory.old.bytes) paging.now access.now (Ok path.entry)).0 }
    ensures memory { guest_of window memory.new.bytes ≡ (answered (guest_of window memory.old.bytes) paging.now access.now (Ok path.entry)).1 }
    ensures others { SameOutside window memory.old memory.new }
    ensures frame { HasFrame result }
{
    let leaf = leaf_at(paging, access, &path, bits);
    if !is_allowed(paging, access, &leaf) {
        return page_fault(true, false, paging, access);
    }
    let changed = is_new(access, &path, bits);
    if changed {
        mark_all(memory, window, access, path);
    }
    Walked::Leaf { leaf, changed }
}

/// Walks the tables of a guest for an access, and sets the accessed and dirty bits where the access is allowed (volume
/// 2, 'Long-Mode Page Translation' and 'Page-Protection Checks').
///
/// The answer is the page's leaf; or a page fault with its error code; or `Ended`, where a table entry lies outside the
/// guest's memory, with the first such address. A fault and an end change nothing. The frame of a leaf is below 2^28.
#[tactic(auto, using(svm_model::proofs::WindowLemmas::windows), unfolding(svm_model::specs::Memory::PageTables::walked, svm_model::specs::Memory::PageTables::path_from))]
pub fn walk<L: Ledger>(
    memory: &mut HostMemory,
    window: GuestWindow,
    paging: &Paging,
    access: Access,
    steps: &mut Steps<L>,
) -> Walked
    requires { IsWithin window memory.old.bytes }
    ensures answer { result ≡ (walked (guest_of window memory.old.bytes) paging.now access).0 }
    ensures memory { guest_of window memory.new.bytes ≡ (walked (guest_of window memory.old.bytes) paging.now access).1 }
    ensures others { SameOutside window memory.old memory.new }
    ensures frame { HasFrame result }
    ensures steps { steps.new ≤ steps.old + 4 }
    ensures later { steps.old ≤ steps.new }
{
    let root = address_in(paging.root);
    let Lookup { entry: top, end } = look_up(memory, window, paging, &access, 4, root, steps);
    if let Some(end) = end {
        return end;
    }
    let table = address_in(top.bits);
    let Lookup { entry: third, end } = look_up(memory, window, paging, &access, 3, table, steps);
    if let Some(end) = end {
        return end;
    }
    let bits = bits_with(top_bits(&top), &third);
    if ends_path(3, &third) {
        return end_at_leaf(memory, window, paging, &access, [top, third], bits);
    }
    let table = address_in(third.bits);
    let Lookup { entry: second, end } = look_up(memory, window, paging, &access, 2, table, steps);
    if let Some(end) = end {
        return end;
    }
    let bits = bits_with(bits, &second);
    if ends_path(2, &second) {
        return end_at_leaf(memory, window, paging, &access, [top, third, second], bits);
    }
    let table = address_in(second.bits);
    let Lookup { entry: last, end } = look_up(memory, window, paging, &access, 1, table, steps);
    match end {
        None => end_at_leaf(
            memory,
            window,
            paging,
            &access,
            [top, third, second, last],
            bits_with(bits, &last),
        ),
        Some(end) => end,
    }
}

/// What a walk answers where nothing stands between its tables' addresses and memory: the leaf's frame is the page itself.
pub fn answer_of(walked: Walked) -> Nested
    ensures { result ≡ as_nested walked }
{
    match walked {
        Walked::Leaf { leaf, changed } => Nested::Leaf {
            leaf,
            guest_frame: leaf.frame,
            changed,
        },
        Walked::PageFault { code } => Nested::PageFault { code },
        Walked::Ended(outside) => Nested::Ended(outside),
    }
}
