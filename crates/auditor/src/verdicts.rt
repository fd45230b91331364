// The audit of a script's events, from the world of an image.
ghost use Rattle.std.specs.Prelude.{◌≡◌, ℕ, ◌+◌, ◌*◌, ◌≤◌, ◌<◌, false, length, is_err, OnOk, IfOk, IfErr};
ghost use Rattle.svm_model.specs.Audit.Verdicts.{audit_of, verdict_of};
ghost use Rattle.svm_model.specs.Formats.LawfulImages.{IsLawfulImage};
ghost use Rattle.svm_model.specs.Formats.Script.{IsLawful, events_of};
ghost use Rattle.svm_model.specs.Machine.Events.{plain_event};
ghost use Rattle.svm_model.specs.Machine.Shapes.{world_shape, image_shape, IsNamed};
ghost use Rattle.svm_model.specs.Machine.World.{world_of};
ghost use Rattle.port_bus.specs.Causes.{Blames, NoneFell};
ghost use Rattle.auditor.specs.CutOffs.{EndsEarly, IsCutAt, IsCutOff};
ghost use Rattle.auditor.specs.Steps.{IsAudited};

use host_memory::Steps;
use image_format::Image;
use plain_machine::PlainMachine;
use port_bus::Ports;
use rule_memory::RuleMemory;
use script_format::Script;
use std::alloc::Global;
use std::sync::ledger::Ledger;
use svm_model::{Breach, Event, RunEnd, Verdict};

/// Does an event on the machine and tells the memory of it, which was told of no breach before: the first breach of the event.
fn audit_event<B: Ports, L: Ledger>(
    machine: &mut PlainMachine,
    memory: &mut RuleMemory,
    event: Event,
    bus: &mut B,
    steps: &mut Steps<L>,
) -> Result<Option<Breach>, RunEnd>
    requires named { IsNamed (world_shape machine.old.world) event }
    requires few { machine.old.world.event < 1048576 }
    requires going { machine.old.stopped ≡ false }
    ensures world { OnOk result (machine.new.world ≡ (plain_event machine.old.world (B.bus bus.old) event).world) }
    ensures bus { OnOk result (B.bus bus.new ≡ (plain_event machine.old.world (B.bus bus.old) event).bus) }
    ensures breach { IfOk result (λ breach. IsAudited memory.old machine.old.world (B.bus bus.old) event breach memory.new) }
    ensures cut { IfErr result (λ end. IsCutAt end machine.old.world (B.bus bus.old) event (B.bus bus.new)) }
    ensures blamed { IfErr result (λ end. Blames end (B.faults bus.old) (B.faults bus.new)) }
    ensures none_fell { NoneFell (B.faults bus.old) (B.faults bus.new) }
    ensures going { machine.new.stopped ≡ is_err result }
    ensures shape { world_shape machine.new.world ≡ world_shape machine.old.world }
    ensures number { OnOk result (machine.new.world.event ≡ machine.old.world.event + 1) }
    ensures steps { steps.new ≤ steps.old + 6368 }
    ensures later { steps.old ≤ steps.new }
{
    match machine.event(event, bus, memory, steps) {
        Ok(_) => Ok(memory.first().copied()),
        Err(end) => Err(end),
    }
}

/// The verdict on the events of a script on a machine at its start. It stands behind the event of the first breach, if there
/// is one, and else behind all.
fn audit_events<B: Ports, L: Ledger>(
    alloc: Global,
    machine: &mut PlainMachine,
    script: &Script,
    cpus: u8,
    bus: &mut B,
    steps: &mut Steps<L>,
) -> Result<Verdict, RunEnd>
    requires lawful { IsLawful (world_shape machine.old.world) script.now }
    requires cpus { (world_shape machine.old.world).cpus ≡ cpus }
    requires count { length (events_of cpus script.now) ≡ script.now.events }
    requires first { machine.old.world.event ≡ 0 }
    requires going { machine.old.stopped ≡ false }
    ensures verdict { IfOk result (λ verdict. verdict ≡ verdict_of script.now.events (audit_of machine.old.world (B.bus bus.old) (events_of cpus script.now)).breach) }
    ensures bus { OnOk result (B.bus bus.new ≡ (audit_of machine.old.world (B.bus bus.old) (events_of cpus script.now)).bus) }
    ensures cut { IfErr result (λ end. IsCutOff end machine.old.world (B.bus bus.old) (events_of cpus script.now) (B.bus bus.new)) }
    ensures blamed { IfErr result (λ end. Blames end (B.faults bus.old) (B.faults bus.new)) }
    ensures none_fell { NoneFell (B.faults bus.old) (B.faults bus.new) }
    ensures steps { steps.new ≤ steps.old + 6368 * (audit_of machine.old.world (B.bus bus.old) (events_of cpus script.now)).world.event }
    ensures later { steps.old ≤ steps.new }
{
    let mut memory = RuleMemory::new(alloc);
    let mut line = 0;
    for number in 0..script.events {
        let Some(event) = script.event_near(number, cpus, &mut line) else {
            unreachable!();
        };
        match audit_event(machine, &mut memory, event, bus, steps) {
            Ok(None) => {}
            Ok(Some(breach)) => return Ok(Verdict::Breach(breach)),
            Err(end) => return Err(end),
        }
    }
    Ok(Verdict::Keeps {
        events: script.events,
    })
}

/// Runs a script on the machine of an image beside the bus of port devices, and answers whether the run keeps the rules of
/// maintenance in all of its events, else its first breach: that of the first event that has one, and there field breaches
/// come before those of translations. No event comes behind that one, so the bus is as it left it.
///
/// The image has to be lawful, as those of `parse_image` are, and the script lawful for it with the right number of events,
/// as those of `parse_script` are. At most 6368 reads are counted for each event.
///
/// A refusal takes the place of a verdict: a device that refuses what an event hands it, which counted a fault in this call,
/// or want of memory for the machine or for what is remembered of a turn. The events before the one that was cut off were
/// done, and kept the rules; of a breach in that event nothing is told.
pub fn audit<B: Ports, L: Ledger>(
    alloc: Global,
    image: &Image,
    script: &Script,
    bus: &mut B,
    steps: &mut Steps<L>,
) -> Result<Verdict, RunEnd>
    requires image { IsLawfulImage image.now }
    requires script { IsLawful (image_shape image.now) script.now }
    requires count { length (events_of image.now.cpus script.now) ≡ script.now.events }
    ensures verdict { IfOk result (λ verdict. verdict ≡ verdict_of script.now.events (audit_of (world_of image.now) (B.bus bus.old) (events_of image.now.cpus script.now)).breach) }
    ensures bus { OnOk result (B.bus bus.new ≡ (audit_of (world_of image.now) (B.bus bus.old) (events_of image.now.cpus script.now)).bus) }
    ensures refused { IfErr result (λ end. EndsEarly end (world_of image.now) (B.bus bus.old) (events_of image.now.cpus script.now) (B.bus bus.new)) }
    ensures blamed { IfErr result (λ end. Blames end (B.faults bus.old) (B.faults bus.new)) }
    ensures none_fell { NoneFell (B.faults bus.old) (B.faults bus.new) }
    ensures steps { steps.new ≤ steps.old + 6368 * (audit_of (world_of image.now) (B.bus bus.old) (events_of image.now.cpus script.now)).world.event }
    ensures later { steps.old ≤ steps.new }
{
    let Ok(mut machine) = PlainMachine::open(alloc, image) else {
        return Err(RunEnd::NoMemory);
    };
    audit_events(alloc, &mut machine, script, image.cpus, bus, steps)
}
