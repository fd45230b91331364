// The end of a walk whose guest leaf was found: its rights, its marks, and the pass of the final page.
ghost use Rattle.std.specs.Prelude.{◌≡◌, ◌+◌, ◌<◌, ◌≤◌, ◌^◌, ◌||◌, List, length};
ghost use Rattle.svm_model.specs.Memory.Bytes.{IsWithin, SameOutside, guest_of};
ghost use Rattle.svm_model.specs.Memory.NestedPaging.{both, is_barred, nested_last, nested_leaf};
ghost use Rattle.svm_model.specs.Memory.PageTables.{leaf_of};
ghost use Rattle.svm_model.specs.Memory.PhysicalAnswers.{IsPhysical};
ghost use Rattle.svm_model.specs.declared.page_tables.Entry.{Entry as EntryRecord};
ghost use Rattle.svm_model.specs.declared.page_tables.Outer.TheVariants.{Tables};
ghost use Rattle.nested_walk.specs.Reaching.{Reaches};
ghost use Rattle.nested_walk.specs.Reading.{AreWithin};
ghost use Rattle.page_walk.specs.PathBits.{Join};

use crate::marks::mark_new;
use crate::passes::{NestedAccess, final_fault, pass_on, stop};
use crate::walked_so_far::SoFar;
use arrayvec::ArrayVec;
use host_memory::{HostMemory, Steps};
use page_walk::{is_allowed, leaf_at, page_fault};
use std::sync::ledger::Ledger;
use svm_model::{Frame, Leaf, Nested, Nesting, Pass, Walked};

/// The frame of the outer leaf, the rights of both, and the size and global mark of the guest's.
fn joined(leaf: Leaf, outer: Leaf) -> Leaf
    ensures { result ≡ both leaf outer }
{
    Leaf {
        frame: outer.frame,
        size: leaf.size,
        global: leaf.global,
        writable: outer.writable && leaf.writable,
        user: outer.user && leaf.user,
        executable: outer.executable && leaf.executable,
        dirty: outer.writable && outer.dirty && leaf.dirty,
    }
}

/// What a walk answers whose page has passed.
fn found_through(leaf: Leaf, outer: Leaf, changed: bool, more: bool) -> Nested
    ensures { result ≡ Nested.Leaf (both leaf outer) leaf.frame (changed || more) }
{
    Nested::Leaf {
        leaf: joined(leaf, outer),
        guest_frame: leaf.frame,
        changed: changed || more,
    }
}

/// Whether the page is the one that is not passed on.
fn is_bar(outer: &Nesting, page: Frame) -> bool
    ensures { result ≡ is_barred (Tables outer.now) page.0 }
{
    match outer.bar {
        Some(bar) => bar.0 == page.0,
        None => false,
    }
}

/// Passes the page of the guest's leaf by the kind of the access, after the marks. `changed` says whether a bit was set by
/// then.
fn pass_last<L: Ledger>(
    of: &NestedAccess,
    memory: &mut HostMemory,
    leaf: Leaf,
    changed: bool,
    passes: &mut ArrayVec<Pass, 5>,
    steps: &mut Steps<L>,
) -> Nested
    requires window { IsWithin of.now.window memory.old.bytes }
    requires room { length passes.old.items < 5 }
    requires frame { leaf.frame.0 < 2 ^ 28 }
    ensures reached { (path : List EntryRecord) → leaf ≡ leaf_of of.now.guest of.now.access path →
        Reaches (nested_last (Tables of.now.outer) of.now.guest of.now.access path changed (guest_of of.now.window memory.old.bytes))
        passes.old.items result (guest_of of.now.window memory.new.bytes) passes.new.items }
    ensures physical { IsPhysical result }
    ensures others { SameOutside of.now.window memory.old memory.new }
    ensures steps { steps.new ≤ steps.old + 4 }
    ensures later { steps.old ≤ steps.new }
{
    if is_bar(&of.outer, leaf.frame) {
        return Nested::Bar { leaf, changed };
    }
    match pass_on(of, memory, leaf.frame, of.access.kind, passes, steps) {
        Walked::Leaf {
            leaf: outer,
            changed: more,
        } => found_through(leaf, outer, changed, more),
        Walked::PageFault { code } => final_fault(leaf.frame, code),
        Walked::Ended(outside) => Nested::Ended(outside),
    }
}

/// Ends a walk that has read its whole path: a page fault where the guest's rights do not allow the access, else the marks
/// of the path and the pass of its page. At most eight reads.
#[tactic(auto, using(svm_model::proofs::WindowLemmas::windows))]
pub fn end_at_leaf<L: Ledger>(
    of: &NestedAccess,
    memory: &mut HostMemory,
    so_far: &SoFar,
    passes: &mut ArrayVec<Pass, 5>,
    steps: &mut Steps<L>,
) -> Nested
    requires window { IsWithin of.now.window memory.old.bytes }
    requires room { length passes.old.items < 5 }
    requires inside { AreWithin of.now.window.size so_far.now.path.items }
    requires bits { Join so_far.now.bits so_far.now.path.items }
    ensures reached { Reaches (nested_leaf (Tables of.now.outer) of.now.guest of.now.access so_far.now.path.items so_far.now.changed (guest_of of.now.window memory.old.bytes))
        passes.old.items result (guest_of of.now.window memory.new.bytes) passes.new.items }
    ensures physical { IsPhysical result }
    ensures others { SameOutside of.now.window memory.old memory.new }
    ensures steps { steps.new ≤ steps.old + 8 }
    ensures later { steps.old ≤ steps.new }
{
    let path = so_far.path.as_slice();
    let leaf = leaf_at(&of.guest, &of.access, path, so_far.bits);
    if !is_allowed(&of.guest, &of.access, &leaf) {
        return stop(page_fault(true, false, &of.guest, &of.access));
    }
    let changed = mark_new(of, memory, so_far, steps);
    pass_last(of, memory, leaf, changed, passes, steps)
}
