// The way down the guest's tables.
ghost use Rattle.std.specs.Prelude.{◌≡◌, ◌+◌, ◌*◌, ◌<◌, ◌≤◌, length};
ghost use Rattle.svm_model.specs.Memory.Bytes.{IsWithin, SameOutside, guest_of};
ghost use Rattle.svm_model.specs.Memory.NestedPaging.{nested_from};
ghost use Rattle.svm_model.specs.Memory.PhysicalAnswers.{IsPhysical};
ghost use Rattle.svm_model.specs.declared.page_tables.Outer.TheVariants.{Tables};
ghost use Rattle.nested_walk.specs.Reaching.{Reaches};
ghost use Rattle.nested_walk.specs.Reading.{IsRead};

use crate::last_page::end_at_leaf;
use crate::passes::{NestedAccess, pass_on, stop, table_fault};
use crate::walked_so_far::{SoFar, add_entry};
use arrayvec::ArrayVec;
use host_memory::{HostMemory, Steps};
use page_walk::{Lookup, ends_path, index_of, look_up};
use std::sync::ledger::Ledger;
use svm_model::{Frame, Kind, Nested, Pass, Walked};

/// Walks on from a table of a level: the page of its entry is passed on as a write, and the entry is read there.
#[tactic(auto, using(svm_model::proofs::WindowLemmas::windows))]
pub fn descend<L: Ledger>(
    of: &NestedAccess,
    memory: &mut HostMemory,
    level: u8,
    so_far: &mut SoFar,
    passes: &mut ArrayVec<Pass, 5>,
    steps: &mut Steps<L>,
) -> Nested
    requires window { IsWithin of.now.window memory.old.bytes }
    requires some { 1 ≤ level }
    requires room { length passes.old.items + level < 5 }
    requires read { IsRead of.now.window.size level so_far.old }
    ensures reached { Reaches (nested_from level (Tables of.now.outer) of.now.guest of.now.access so_far.old.table so_far.old.path.items so_far.old.changed (guest_of of.now.window memory.old.bytes))
        passes.old.items result (guest_of of.now.window memory.new.bytes) passes.new.items }
    ensures physical { IsPhysical result }
    ensures others { SameOutside of.now.window memory.old memory.new }
    ensures steps { steps.new ≤ steps.old + 5 * level + 8 }
    ensures later { steps.old ≤ steps.new }
{
    let at = so_far.table + 8 * index_of(of.access.page, level);
    match pass_on(of, memory, Frame(at / 4096), Kind::Write, passes, steps) {
        Walked::PageFault { code } => table_fault(at, code),
        Walked::Ended(outside) => Nested::Ended(outside),
        Walked::Leaf { leaf, changed } => {
            let table = 4096 * leaf.frame.0;
            let Lookup { entry, end } = look_up(
                memory, of.window, &of.guest, &of.access, level, table, steps,
            );
            if let Some(end) = end {
                return stop(end);
            }
            add_entry(so_far, &entry, changed);
            if ends_path(level, &entry) {
                return end_at_leaf(of, memory, so_far, passes, steps);
            }
            descend(of, memory, level - 1, so_far, passes, steps)
        }
    }
}
