// An event of which nobody is told.
ghost use Rattle.std.specs.Prelude.{◌≡◌, ℕ, ◌+◌, ◌≤◌, ◌<◌, false, is_err, OnOk, OnErr, IfOk, IfErr};
ghost use Rattle.svm_model.specs.Machine.Events.{plain_event};
ghost use Rattle.svm_model.specs.Machine.Runs.{HandsOver};
ghost use Rattle.svm_model.specs.Machine.Shapes.{world_shape, IsNamed};
ghost use Rattle.port_bus.specs.Causes.{Blames, NoneFell};
ghost use Rattle.plain_machine.specs.Marks.{ChangesAreMarked};
ghost use Rattle.plain_machine.specs.Others.{OthersStay};
ghost use Rattle.plain_machine.specs.Reads.{is_run};

use host_memory::Steps;
use plain_machine::{PlainMachine, Unwatched};
use port_bus::{Ports, RunEnd};
use std::sync::ledger::Ledger;
use vm_names::{Effect, Event};

/// Does an event on the machine. As nobody is told of it, what may be refused is what it hands to the bus alone, which is then
/// as it was.
#[inline(always)]
pub fn do_event<B: Ports, L: Ledger>(
    machine: &mut PlainMachine,
    event: Event,
    bus: &mut B,
    steps: &mut Steps<L>,
) -> Result<Effect, RunEnd>
    requires named { IsNamed (world_shape machine.old.world) event }
    requires few { machine.old.world.event < 1048576 }
    requires going { machine.old.stopped ≡ false }
    ensures world { OnOk result (machine.new.world ≡ (plain_event machine.old.world (B.bus bus.old) event).world) }
    ensures bus { OnOk result (B.bus bus.new ≡ (plain_event machine.old.world (B.bus bus.old) event).bus) }
    ensures effect { IfOk result (λ effect. effect ≡ (plain_event machine.old.world (B.bus bus.old) event).effect) }
    ensures stopped { machine.new.stopped ≡ is_err result }
    ensures hands_over { OnErr result ((call : ℕ) × HandsOver call machine.old.world (B.bus bus.old) event) }
    ensures kept { OnErr result (B.bus bus.new ≡ B.bus bus.old) }
    ensures blamed { IfErr result (λ end. Blames end (B.faults bus.old) (B.faults bus.new)) }
    ensures none_fell { NoneFell (B.faults bus.old) (B.faults bus.new) }
    ensures others { OthersStay machine.old.world event machine.new.world }
    ensures marked { ChangesAreMarked machine.old machine.new }
    ensures shape { world_shape machine.new.world ≡ world_shape machine.old.world }
    ensures number { OnOk result (machine.new.world.event ≡ machine.old.world.event + 1) }
    ensures steps { steps.new ≤ steps.old + 6368 }
    ensures still { is_run event ≡ false → steps.new ≡ steps.old }
    ensures later { steps.old ≤ steps.new }
{
    machine.event(event, bus, &mut Unwatched, steps)
}
