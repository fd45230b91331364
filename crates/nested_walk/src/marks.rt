// The A and D bits that a walk sets in the guest's tables, in the words as memory has them by then.
ghost use Rattle.std.specs.Prelude.{◌≡◌, ◌+◌, ◌≤◌, ◌||◌, length, if◌then◌else◌};
ghost use Rattle.svm_model.specs.Memory.Bytes.{IsWithin, SameOutside, guest_of};
ghost use Rattle.svm_model.specs.Memory.NestedPaging.{marked_now, with_marks};
ghost use Rattle.svm_model.specs.Memory.PageTables.{is_changed};
ghost use Rattle.page_walk.specs.PathBits.{Join};
ghost use Rattle.nested_walk.specs.Reading.{AreWithin};

use crate::passes::NestedAccess;
use crate::walked_so_far::SoFar;
use bitflags::Flags;
use host_memory::{GuestWindow, HostMemory, Steps};
use page_walk::{EntryBits, is_new, leaf_marks, write_entry};
use std::sync::ledger::Ledger;
use svm_model::{Access, Entry};

/// Sets bits in the entry at an address, whose word is read again: a pass may have marked it since the walk read it.
#[tactic(auto, using(svm_model::proofs::WindowLemmas::windows))]
fn set_marks<L: Ledger>(
    memory: &mut HostMemory,
    window: GuestWindow,
    at: u64,
    marks: EntryBits,
    steps: &mut Steps<L>,
)
    requires window { IsWithin window memory.old.bytes }
    requires inside { at + 8 ≤ window.size }
    ensures marked { guest_of window memory.new.bytes ≡ with_marks (guest_of window memory.old.bytes) at marks.0 }
    ensures others { SameOutside window memory.old memory.new }
    ensures steps { steps.new ≡ steps.old + 1 }
{
    match memory.read_number(window, at, steps) {
        Ok(bits) => {
            let bits = EntryBits::from_bits_retain(bits);
            write_entry(memory, window, at, bits.union(marks));
        }
        // The walk has read the entry, so it is there.
        Err(_) => {}
    }
}

/// Marks each entry of the path as accessed, and the leaf of a write as dirty too, by a read each.
#[tactic(auto, using(svm_model::proofs::WindowLemmas::windows), unfolding(svm_model::specs::Memory::NestedPaging::marked_now))]
fn mark<L: Ledger>(
    memory: &mut HostMemory,
    window: GuestWindow,
    access: &Access,
    path: &[Entry],
    steps: &mut Steps<L>,
)
    requires window { IsWithin window memory.old.bytes }
    requires inside { AreWithin window.size path.now }
    ensures marked { guest_of window memory.new.bytes ≡ marked_now access.now (guest_of window memory.old.bytes) path.now }
    ensures others { SameOutside window memory.old memory.new }
    ensures steps { steps.new ≡ steps.old + length path.now }
{
    match path {
        [] => {}
        [leaf] => set_marks(memory, window, leaf.at, leaf_marks(access), steps),
        [entry, rest @ ..] => {
            set_marks(memory, window, entry.at, EntryBits::ACCESSED, steps);
            mark(memory, window, access, rest, steps);
        }
    }
}

/// Marks the path where a bit is still to be set, and answers whether one was set so far.
#[tactic(auto, using(svm_model::proofs::WindowLemmas::windows))]
pub fn mark_new<L: Ledger>(
    of: &NestedAccess,
    memory: &mut HostMemory,
    so_far: &SoFar,
    steps: &mut Steps<L>,
) -> bool
    requires window { IsWithin of.now.window memory.old.bytes }
    requires inside { AreWithin of.now.window.size so_far.now.path.items }
    requires bits { Join so_far.now.bits so_far.now.path.items }
    ensures changed { result ≡ (so_far.now.changed || is_changed of.now.access so_far.now.path.items) }
    ensures marked { guest_of of.now.window memory.new.bytes ≡ (if is_changed of.now.access so_far.now.path.items
        then marked_now of.now.access (guest_of of.now.window memory.old.bytes) so_far.now.path.items
        else guest_of of.now.window memory.old.bytes) }
    ensures others { SameOutside of.now.window memory.old memory.new }
    ensures steps { steps.new ≤ steps.old + 4 }
    ensures later { steps.old ≤ steps.new }
{
    let path = so_far.path.as_slice();
    if !is_new(&of.access, path, so_far.bits) {
        return so_far.changed;
    }
    mark(memory, of.window, &of.access, path, steps);
    true
}
