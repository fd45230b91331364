// The turn of a vcpu in its guest's memory.
ghost use Rattle.std.specs.Option.{option_copied};
ghost use Rattle.std.specs.Prelude.{◌*◌, ◌≡◌, ◌+◌, ◌%◌, ◌≤◌, [], true, is_some, List, None};
ghost use Rattle.port_bus.specs.Causes.{NoneFell};
ghost use Rattle.svm_model.specs.Memory.Bytes.{IsWithin, SameOutside, guest_of};
ghost use Rattle.svm_model.specs.Turn.Course.{Told};
ghost use Rattle.svm_model.specs.Turn.Play.{play};
ghost use Rattle.svm_model.specs.Turn.Work.{turn_course};
ghost use Rattle.turn_exec.specs.Begun.{begun};
ghost use Rattle.turn_exec.specs.Follows.{Ensues};
ghost use Rattle.turn_exec.specs.Plays.{board_with, IsBlamed, IsCause, refused_at};

use crate::apics::Apics;
use crate::control::Control;
use crate::guest_turn::{GuestTurn, Outward};
use crate::translator::Translator;
use crate::works::turn;
use arrayvec::ArrayVec;
use host_memory::{GuestWindow, HostMemory, Steps};
use port_bus::Ports;
use row_table::KeptRows;
use std::sync::ledger::Ledger;
use svm_model::{Facts, Space, Stepped, Vcpu};

/// The turn of a vcpu over its guest's memory, where its APIC gives this vector. How it came out is left in `stepped`, unless it
/// went through, and in `outward` what came of its outward calls. Where one is refused, memory, what stands about the vcpu and the vcpu are those
/// that the turn has then reached. One call at most was
/// granted before, of which the number is in `outward`. It makes as many reads at most as 225 translations cost.
#[inline(always)]
pub fn take_turn<T: Translator, B: Ports, A: Apics, L: Ledger>(
    translator: &mut T,
    memory: &mut HostMemory,
    window: GuestWindow,
    space: &Space,
    bus: &mut B,
    apics: &mut A,
    control: Option<&Control>,
    rows: &mut KeptRows,
    facts: &Facts,
    vcpu: &mut Vcpu,
    interrupt: Option<u8>,
    steps: &mut Steps<L>,
    outward: &mut Outward,
    stepped: &mut Stepped,
)
    requires went { stepped.old ≡ Stepped.Went }
    requires window { IsWithin window memory.old.bytes }
    requires pages { window.size % 4096 ≡ 0 }
    requires some { 4096 ≤ window.size }
    requires cost { 1 ≤ T.cost }
    requires begun { outward.old ≡ begun outward.old.calls }
    requires few { outward.old.calls ≤ 1 }
    ensures follows { (history : List Told) → T.stands translator.old history →
        Ensues T.stands T.tells T.copies T.rule outward.new.refused (play (record { space = space.now; refused = refused_at outward.new.refused outward.new.calls }) (board_with (B.bus bus.old) (A.apic apics.old) None outward.old.calls None None) (guest_of window memory.old.bytes) []
        (turn_course (option_copied control.entry) facts.now vcpu.old interrupt))
        history translator.old translator.new (guest_of window memory.new.bytes) (board_with (B.bus bus.new) (A.apic apics.new) outward.new.sent outward.new.calls outward.new.refused outward.new.denied) vcpu.new stepped.new }
    ensures others { SameOutside window memory.old memory.new }
    ensures none_fell { NoneFell (B.faults bus.old) (B.faults bus.new) }
    ensures more { outward.old.calls ≤ outward.new.calls }
    ensures few { outward.new.calls ≤ 226 }
    ensures out { is_some outward.new.denied ≡ true → is_some outward.new.refused ≡ true }
    ensures cause { IsCause outward.new.refused outward.new.denied (T.refusals translator.old) (T.refusals translator.new) }
    ensures none_refused { T.refusals translator.old ≤ T.refusals translator.new }
    ensures name { T.name translator.new ≡ T.name translator.old }
    ensures blamed { IsBlamed outward.new.refused (B.faults bus.old) (B.faults bus.new) }
    ensures steps { steps.new ≤ steps.old + T.cost * 225 }
    ensures later { steps.old ≤ steps.new }
{
    let mut reach = GuestTurn {
        translator,
        memory,
        bus,
        apics,
        steps,
        outward,
        window,
        space: *space,
        frames: ArrayVec::new(),
        spent: 0,
    };
    turn(&mut reach, control, rows, facts, vcpu, interrupt, stepped);
}
