// Runs and audits generated input, and prints what became of it.
ghost use Rattle.std.specs.Prelude.{◌≡◌, ◌⊎◌, ◌≤◌, ℕ, [], List, Option, length};
ghost use Rattle.fault_counts.specs.Causes.{Rose};
ghost use Rattle.svm_model.specs.Formats.LawfulImages.{IsLawfulImage};
ghost use Rattle.svm_model.specs.Formats.Script.{IsLawful, events_of};
ghost use Rattle.svm_model.specs.Machine.Bus.{Bus as BusRecord};
ghost use Rattle.svm_model.specs.Machine.Shapes.{image_shape, world_shape};
ghost use Rattle.svm_run.specs.Answers.{EndsPrinting, EndsRun, HasCause, IsBeforeRun, IsDetermined};
ghost use Rattle.svm_run.specs.Jobs.{job};
ghost use Rattle.svm_run.specs.Outcome.{completed, status_made as status_of_made};
ghost use Rattle.svm_run.specs.StatusLine.{status_line};
ghost use Rattle.svm_run.specs.Statuses.{meaning_of};
ghost use Rattle.svm_run.specs.Stops.{AreRead};
ghost use Rattle.svm_run.specs.Summary.{summary as summary_of};
ghost use Rattle.svm_run.specs.declared.words.Work.{Work as WorkRecord};

use crate::no_devices::NoDevices;
use crate::printing::{print_last, refuse};
use crate::report::end_status;
use crate::running::{RunFault, Teller, run_events};
use crate::status::Status;
use crate::summary::summary;
use crate::unwatched::do_event;
use crate::words::Numbers;
use auditor::{Verdict, audit};
use byte_shelf::Sink;
use host_memory::Steps;
use image_format::Image;
use plain_machine::PlainMachine;
use port_bus::Ports;
use script_format::Script;
use std::alloc::Global;
use std::sync::ledger::Ledger;
use vm_names::Event;

/// Prints nothing of an event, as an audit does.
#[derive(Clone, Copy)]
struct Silent;

impl Teller for Silent {
    ghost work = { WorkRecord.Audit };

    ghost ready = { λ _ _. Unit {0} };

    #[tactic(auto, using(crate::proofs::Stops::stops, port_bus::proofs::Counts::counts))]
    fn tell<B: Ports, K: Sink, L: Ledger>(
        &mut self,
        machine: &mut PlainMachine,
        event: Event,
        bus: &mut B,
        _sink: &mut K,
        steps: &mut Steps<L>,
    ) -> Result<(), RunFault> {
        match do_event(machine, event, bus, steps) {
            Ok(_) => Ok(()),
            Err(end) => Err(RunFault::Bus(end)),
        }
    }
}

/// The status of a run with this verdict.
fn status_of(machine: &PlainMachine, image: &Image, verdict: &Verdict) -> Status
    requires lawful { IsLawfulImage image.now }
    requires shape { world_shape machine.now.world ≡ image_shape image.now }
    ensures { result ≡ status_of_made machine.now.world.guests verdict.now }
{
    match verdict {
        Verdict::Keeps { .. } => end_status(machine, image),
        Verdict::Breach(_) => Status::Breach,
    }
}

/// Prints the summary of generated input, from its machine behind the run.
fn print_summary<K: Sink>(
    alloc: Global,
    numbers: Numbers,
    machine: &PlainMachine,
    image: &Image,
    verdict: &Verdict,
    sink: &mut K,
) -> Status
    requires lawful { IsLawfulImage image.now }
    requires shape { world_shape machine.now.world ≡ image_shape image.now }
    ensures { EndsPrinting (status_of_made machine.now.world.guests verdict.now) result (summary_of numbers machine.now.world verdict.now) (K.written sink.old) (K.written sink.new)
        (Rose (K.faults sink.old) (K.faults sink.new) ⊎ Rose (K.refusals sink.old) (K.refusals sink.new)) (K.faults sink.old) (K.faults sink.new) }
{
    let Ok(text) = summary(alloc, numbers, machine, image, verdict) else {
        return refuse(sink, Status::NoMemory);
    };
    print_last(sink, &text, status_of(machine, image, verdict))
}

/// Runs generated input, audits it, and prints its summary. Both are made on one bus, which has no device and is dropped then;
/// so what ends them early is want of memory.
pub fn run_made<K: Sink, L: Ledger>(
    alloc: Global,
    numbers: Numbers,
    image: &Image,
    script: &Script,
    sink: &mut K,
    steps: &mut Steps<L>,
) -> Status
    requires lawful { IsLawfulImage image.now }
    requires script { IsLawful (image_shape image.now) script.now }
    requires count { length (events_of image.now.cpus script.now) ≡ script.now.events }
    ensures exact { (bus : BusRecord) → IsDetermined result → result ≡ (completed bus (job (WorkRecord.Made numbers) image.now script.now)).status }
    ensures run { IsBeforeRun result → ⊥ }
    ensures ends { (bus : BusRecord) → EndsRun (meaning_of result) (status_line result) (job (WorkRecord.Made numbers) image.now script.now) bus bus (K.written sink.old) (K.written sink.new)
        (Rose (K.faults sink.old) (K.faults sink.new) ⊎ Rose (K.refusals sink.old) (K.refusals sink.new)) }
    ensures cause { (s t : ℕ) (d e : List (Option ℕ)) → HasCause (meaning_of result).blame s t (K.faults sink.old) (K.faults sink.new) d e }
    ensures steps { (bus : BusRecord) → AreRead (WorkRecord.Made numbers) steps.old steps.new (completed bus (job (WorkRecord.Made numbers) image.now script.now)).events }
    ensures most_steps { AreRead (WorkRecord.Made numbers) steps.old steps.new 1048576 }
{
    let mut bus = NoDevices::new(alloc);
    let Ok(mut machine) = PlainMachine::open(alloc, image) else {
        return refuse(sink, Status::NoMemory);
    };
    let mut silent = Silent;
    let Ok(()) = run_events(
        &mut silent,
        &mut machine,
        script,
        image.cpus,
        &mut bus,
        sink,
        steps,
    ) else {
        return refuse(sink, Status::NoMemory);
    };
    let Ok(verdict) = audit(alloc, image, script, &mut bus, steps) else {
        return refuse(sink, Status::NoMemory);
    };
    print_summary(alloc, numbers, &machine, image, &verdict, sink)
}
