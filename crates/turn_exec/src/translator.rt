// What translates the accesses of a turn.
ghost use Rattle.std.specs.Prelude.{◌≡◌, ℕ, ◌+◌, ◌%◌, ◌≤◌, Bool, List, ◌∷◌, IfOk, OnOk, OnErr};
ghost use Rattle.fault_counts.specs.Causes.{Rose};
ghost use Rattle.svm_model.specs.Memory.Bytes.{IsWithin, SameOutside, guest_of};
ghost use Rattle.svm_model.specs.Memory.PhysicalAnswers.{IsPhysical};
ghost use Rattle.svm_model.specs.Turn.Course.{Flushed, Told, told_of};
ghost use Rattle.turn_exec.specs.Follows.{Needs, Walks};

use host_memory::{GuestWindow, HostMemory, Steps};
use std::sync::ledger::Ledger;
use svm_model::{Access, Flush, Nested, NoMemory, Space};

/// A way to translate accesses, which may keep copies of what walks have found, and tell another of each access and flush.
///
/// A history is what was told so far, the newest first. Whatever is kept stands for some of it (`stands`). Where copies are
/// kept (`copies`), an answer is that of the walk only while the rule is kept (`rule`), which says of each access, by the
/// history before it, whether copies that stand for that history may serve it; where none are kept, it always is.
///
/// What is told makes something of the way to translate and of whom it tells (`tells`). That one, who has a name (`name`), may
/// refuse an access or a flush, and its refusals are counted (`refusals`), in a number that never falls and rises with each; what
/// the walk marked stays.
pub trait Translator {
    ghost stands: { Self → List Told → Type 0 };

    ghost tells: { Self → Told → Self → Type 0 };

    ghost copies: { Bool };

    ghost rule: { List Told → Told → Bool };

    ghost refusals: { Self → ℕ };

    ghost name: { Self → ℕ };

    /// How many reads a translation makes at most.
    ghost cost: { ℕ };

    /// Translates an access in a space, and sets the accessed and dirty bits of the entries that a walk of it uses.
    fn translate<L: Ledger>(
        &mut self,
        memory: &mut HostMemory,
        window: GuestWindow,
        space: &Space,
        access: Access,
        steps: &mut Steps<L>,
    ) -> Result<Nested, NoMemory>
        requires window { IsWithin window memory.old.bytes }
        requires pages { window.size % 4096 ≡ 0 }
        ensures walks { (history : List Told) → stands self.old history →
            Needs copies (rule history (told_of space.now (guest_of window memory.old.bytes) access)) →
            Walks stands tells space.now (guest_of window memory.old.bytes) access history self.old result self.new (guest_of window memory.new.bytes) }
        ensures physical { IfOk result IsPhysical }
        ensures refused { OnErr result (Rose (refusals self.old) (refusals self.new)) }
        ensures none_fell { refusals self.old ≤ refusals self.new }
        ensures name { name self.new ≡ name self.old }
        ensures others { SameOutside window memory.old memory.new }
        ensures steps { steps.new ≤ steps.old + cost }
        ensures later { steps.old ≤ steps.new };

    /// Drops copies.
    fn flush(&mut self, flush: Flush) -> Result<(), NoMemory>
        ensures stands { (history : List Told) → stands self.old history → stands self.new (Flushed flush ∷ history) }
        ensures told { OnOk result (tells self.old (Flushed flush) self.new) }
        ensures refused { OnErr result (Rose (refusals self.old) (refusals self.new)) }
        ensures none_fell { refusals self.old ≤ refusals self.new }
        ensures name { name self.new ≡ name self.old };
}
