// The walk over both levels.
ghost use Rattle.std.specs.Prelude.{◌≡◌, ◌+◌, ◌≤◌, []};
ghost use Rattle.svm_model.specs.Memory.Bytes.{IsWithin, SameOutside, guest_of};
ghost use Rattle.svm_model.specs.Memory.NestedPaging.{walked_over};
ghost use Rattle.svm_model.specs.Memory.PhysicalAnswers.{IsPhysical};
ghost use Rattle.svm_model.specs.declared.page_tables.Outer.TheVariants.{Tables};

use crate::descent::descend;
use crate::passes::NestedAccess;
use crate::walked_so_far::at_root;
use arrayvec::ArrayVec;
use host_memory::{GuestWindow, HostMemory, Steps};
use std::sync::ledger::Ledger;
use svm_model::{Access, Nested, Nesting, Paging, Pass};

/// Walks the tables of a guest for an access, where each guest-physical address passes through outer tables (volume 2,
/// 'Nested Paging'): that of a table's entry as a write, that of the final page by the kind of the access. Accessed and
/// dirty bits are set at both levels, the guest's in the words as memory has them by then.
///
/// The answer is the leaf, with the frame of the outer level and the rights of both; or `Bar`, where the final page is the
/// one that is not passed on; or a page fault of the guest's tables; or a nested fault, which tells the entry's address or
/// the final page's; or `Ended`, where an entry of either level lies outside the memory. Each pass is told in order, also
/// one that fails. A leaf's frame is below 2^28, and a nested fault's address below 2^63.
#[tactic(auto, unfolding(svm_model::specs::Memory::NestedPaging::nested_walked))]
pub fn nested_walk<L: Ledger>(
    memory: &mut HostMemory,
    window: GuestWindow,
    guest: &Paging,
    outer: &Nesting,
    access: Access,
    passes: &mut ArrayVec<Pass, 5>,
    steps: &mut Steps<L>,
) -> Nested
    requires window { IsWithin window memory.old.bytes }
    requires none { passes.old.items ≡ [] }
    ensures answer { result ≡ (walked_over (Tables outer.now) (guest_of window memory.old.bytes) guest.now access).answer }
    ensures memory { guest_of window memory.new.bytes ≡ (walked_over (Tables outer.now) (guest_of window memory.old.bytes) guest.now access).memory }
    ensures passes { passes.new.items ≡ (walked_over (Tables outer.now) (guest_of window memory.old.bytes) guest.now access).passes }
    ensures others { SameOutside window memory.old memory.new }
    ensures physical { IsPhysical result }
    ensures steps { steps.new ≤ steps.old + 28 }
    ensures later { steps.old ≤ steps.new }
{
    let of = NestedAccess {
        window,
        guest: *guest,
        outer: *outer,
        access,
    };
    descend(&of, memory, 4, &mut at_root(guest), passes, steps)
}
