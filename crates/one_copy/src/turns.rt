// A turn that starts with nothing kept that could be stale.
ghost use Rattle.std.specs.Prelude.{◌≡◌, ◌+◌, ◌%◌, ◌≤◌, [], List, None, true};
ghost use Rattle.svm_model.specs.Turn.Course.{Told};
ghost use Rattle.port_bus.specs.Causes.{NoneFell};
ghost use Rattle.svm_model.specs.Memory.Bytes.{IsWithin, SameOutside, guest_of};
ghost use Rattle.svm_model.specs.Turn.Play.{play};
ghost use Rattle.svm_model.specs.Turn.Work.{turn_course};
ghost use Rattle.turn_exec.specs.Begun.{nothing};
ghost use Rattle.turn_exec.specs.Follows.{Ensues};
ghost use Rattle.turn_exec.specs.Plays.{board_with, IsBlamed, refused_at};
ghost use Rattle.one_copy.specs.Recalls.{keeps};

use crate::translating::OneCopy;
use host_memory::{GuestWindow, HostMemory, Steps};
use port_bus::Ports;
use row_table::KeptRows;
use std::sync::ledger::Ledger;
use svm_model::{Facts, Outer, Space, Stepped, Vcpu};
use turn_exec::{Apics, Outward, Translator};

/// The turn of a vcpu in L1, before which the copy was dropped, where its APIC gives no vector. At most 6300 reads are
/// counted. Where the rule is kept within the turn, memory, what stands about the vcpu, the vcpu and the answer are those of
/// the turn that walks for each access.
pub fn take_turn<B: Ports, A: Apics, L: Ledger>(
    copy: &mut OneCopy,
    memory: &mut HostMemory,
    window: GuestWindow,
    space: &Space,
    bus: &mut B,
    apics: &mut A,
    rows: &mut KeptRows,
    facts: &Facts,
    vcpu: &mut Vcpu,
    steps: &mut Steps<L>,
    outward: &mut Outward,
) -> Stepped
    requires window { IsWithin window memory.old.bytes }
    requires pages { window.size % 4096 ≡ 0 }
    requires some { 4096 ≤ window.size }
    requires direct { space.now.outer ≡ Outer.Direct }
    requires begun { outward.old ≡ nothing }
    requires dropped { (history : List Told) → ⟦<OneCopy as Translator>⟧.stands copy.old history }
    ensures follows { Ensues (⟦<OneCopy as Translator>⟧.stands) (⟦<OneCopy as Translator>⟧.tells) true keeps outward.new.refused (play (record { space = space.now; refused = refused_at outward.new.refused outward.new.calls }) (board_with (B.bus bus.old) (A.apic apics.old) None 0 None None) (guest_of window memory.old.bytes) []
        (turn_course None facts.now vcpu.old None))
        [] copy.old copy.new (guest_of window memory.new.bytes) (board_with (B.bus bus.new) (A.apic apics.new) outward.new.sent outward.new.calls outward.new.refused outward.new.denied) vcpu.new result }
    ensures others { SameOutside window memory.old memory.new }
    ensures none_fell { NoneFell (B.faults bus.old) (B.faults bus.new) }
    ensures blamed { IsBlamed outward.new.refused (B.faults bus.old) (B.faults bus.new) }
    ensures steps { steps.new ≤ steps.old + 6300 }
{
    let mut stepped = Stepped::Went;
    turn_exec::take_turn(
        copy,
        memory,
        window,
        space,
        bus,
        apics,
        None,
        rows,
        facts,
        vcpu,
        None,
        steps,
        outward,
        &mut stepped,
    );
    stepped
}
