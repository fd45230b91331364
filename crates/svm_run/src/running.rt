// Runs a script's events on the machine, and tells of each as it comes.
ghost use Rattle.std.specs.Prelude.{◌≡◌, ◌+◌, ◌*◌, ◌≤◌, ◌<◌, false, length, OnOk, IfErr};
ghost use Rattle.byte_shelf.specs.Sink.{appended};
ghost use Rattle.svm_model.specs.Formats.Script.{IsLawful, events_of};
ghost use Rattle.svm_model.specs.Machine.Events.{plain_event};
ghost use Rattle.svm_model.specs.Machine.Runs.{plain_run};
ghost use Rattle.svm_model.specs.Machine.Shapes.{world_shape, IsNamed};
ghost use Rattle.svm_model.specs.Machine.World.{World};
ghost use Rattle.port_bus.specs.Causes.{NoneFell};
ghost use Rattle.svm_run.specs.Outcome.{event_text, texts_of};
ghost use Rattle.svm_run.specs.Stops.{AreRead, EndsEvent, EndsEvents, IsOfCounts};
ghost use Rattle.svm_run.specs.declared.words.Work.{Work as WorkRecord};

use crate::dumps::text_of;
use crate::unwatched::do_event;
use byte_shelf::{Sink, SinkRefusal, write_all};
use host_memory::Steps;
use plain_machine::PlainMachine;
use port_bus::{Ports, RunEnd};
use script_format::Script;
use std::alloc::Global;
use std::sync::ledger::Ledger;
use vm_names::Event;

/// Why a run of events ends before all of them are done and printed. No event comes behind it.
#[derive(Clone, Copy)]
pub enum RunFault {
    /// There was no memory for what an event prints, and the event was not done.
    NoMemory,
    /// The bus refused what an event handed it.
    Bus(RunEnd),
    /// The event was done, and what it prints was not wholly received: the sink refused it, or there was no memory for it.
    Unprinted(SinkRefusal),
}

/// What tells of the events of a run: it does each on the machine, and prints its text.
pub trait Teller {
    /// What is asked for, and so the text of an event.
    ghost work: { WorkRecord };

    /// It is ready for an event of the world.
    ghost ready: { Self → World → Type 0 };

    /// Does an event, and prints what it prints.
    fn tell<B: Ports, K: Sink, L: Ledger>(
        &mut self,
        machine: &mut PlainMachine,
        event: Event,
        bus: &mut B,
        sink: &mut K,
        steps: &mut Steps<L>,
    ) -> Result<(), RunFault>
        requires ready { ready self.old machine.old.world }
        requires named { IsNamed (world_shape machine.old.world) event }
        requires few { machine.old.world.event < 1048576 }
        requires going { machine.old.stopped ≡ false }
        ensures ready { OnOk result (ready self.new machine.new.world) }
        ensures world { OnOk result (machine.new.world ≡ (plain_event machine.old.world (B.bus bus.old) event).world) }
        ensures bus { OnOk result (B.bus bus.new ≡ (plain_event machine.old.world (B.bus bus.old) event).bus) }
        ensures printed { OnOk result (K.written sink.new ≡ appended (K.written sink.old) (event_text work machine.old.world (B.bus bus.old) event)) }
        ensures ended { IfErr result (λ fault. EndsEvent work fault machine.old.world event (B.bus bus.old) (B.bus bus.new) (K.written sink.old) (K.written sink.new)) }
        ensures cause { IfErr result (λ fault. IsOfCounts fault (B.faults bus.old) (B.faults bus.new) (K.faults sink.old) (K.faults sink.new)) }
        ensures none_fell { NoneFell (B.faults bus.old) (B.faults bus.new) }
        ensures shape { world_shape machine.new.world ≡ world_shape machine.old.world }
        ensures number { OnOk result (machine.new.world.event ≡ machine.old.world.event + 1) }
        ensures going { OnOk result (machine.new.stopped ≡ false) }
        ensures steps { AreRead work steps.old steps.new 1 }
        ensures later_faults { K.faults sink.old ≤ K.faults sink.new }
        ensures later_refusals { K.refusals sink.old ≤ K.refusals sink.new };
}

/// Tells of dumps alone, each by its line.
#[derive(Clone, Copy)]
pub struct Dumps {
    pub alloc: Global,
}

impl Teller for Dumps {
    ghost work = { WorkRecord.Run };

    ghost ready = { λ _ _. Unit {0} };

    /// At most 6368 reads are counted.
    #[tactic(auto, using(crate::proofs::Stops::stops, port_bus::proofs::Counts::counts))]
    fn tell<B: Ports, K: Sink, L: Ledger>(
        &mut self,
        machine: &mut PlainMachine,
        event: Event,
        bus: &mut B,
        sink: &mut K,
        steps: &mut Steps<L>,
    ) -> Result<(), RunFault> {
        let Ok(shown) = text_of(self.alloc, machine, event, steps) else {
            return Err(RunFault::NoMemory);
        };
        if let Err(end) = do_event(machine, event, bus, steps) {
            return Err(RunFault::Bus(end));
        }
        let Some(text) = shown else {
            return Ok(());
        };
        match write_all(sink, &text) {
            Ok(()) => Ok(()),
            Err(refusal) => Err(RunFault::Unprinted(refusal)),
        }
    }
}

/// Runs the events of a script and tells of each as it comes: all of them, or up to the first that the bus refuses, whose text
/// there is no memory for, or whose text the sink refuses.
#[tactic(auto, using(crate::proofs::Events::events, crate::proofs::Stops::stops, port_bus::proofs::Counts::counts))]
pub fn run_events<T: Teller, B: Ports, K: Sink, L: Ledger>(
    teller: &mut T,
    machine: &mut PlainMachine,
    script: &Script,
    cpus: u8,
    bus: &mut B,
    sink: &mut K,
    steps: &mut Steps<L>,
) -> Result<(), RunFault>
    requires ready { T.ready teller.old machine.old.world }
    requires lawful { IsLawful (world_shape machine.old.world) script.now }
    requires cpus { (world_shape machine.old.world).cpus ≡ cpus }
    requires count { length (events_of cpus script.now) ≡ script.now.events }
    requires first { machine.old.world.event ≡ 0 }
    requires going { machine.old.stopped ≡ false }
    ensures world { OnOk result (machine.new.world ≡ (plain_run machine.old.world (B.bus bus.old) (events_of cpus script.now)).world) }
    ensures bus { OnOk result (B.bus bus.new ≡ (plain_run machine.old.world (B.bus bus.old) (events_of cpus script.now)).bus) }
    ensures printed { OnOk result (K.written sink.new ≡ appended (K.written sink.old) (texts_of T.work machine.old.world (B.bus bus.old) (events_of cpus script.now))) }
    ensures ended { IfErr result (λ fault. EndsEvents T.work fault machine.old.world (events_of cpus script.now) (B.bus bus.old) (B.bus bus.new) (K.written sink.old) (K.written sink.new)) }
    ensures cause { IfErr result (λ fault. IsOfCounts fault (B.faults bus.old) (B.faults bus.new) (K.faults sink.old) (K.faults sink.new)) }
    ensures shape { world_shape machine.new.world ≡ world_shape machine.old.world }
    ensures number { OnOk result (machine.new.world.event ≡ script.now.events) }
    ensures steps { AreRead T.work steps.old steps.new script.now.events }
    ensures later_faults { K.faults sink.old ≤ K.faults sink.new }
    ensures later_refusals { K.refusals sink.old ≤ K.refusals sink.new }
{
    let mut line = 0;
    for number in 0..script.events {
        let Some(event) = script.event_near(number, cpus, &mut line) else {
            unreachable!();
        };
        match teller.tell(machine, event, bus, sink, steps) {
            Ok(()) => {}
            Err(fault) => return Err(fault),
        }
    }
    Ok(())
}
