// The top call: what the program does with its words.
ghost use Rattle.std.specs.Prelude.{◌≡◌, ◌⊎◌, ◌≤◌, ◌+◌, ◌*◌, length, map, [], List, Option, ℕ, None, IfSome};
ghost use Rattle.fault_counts.specs.Causes.{Rose};
ghost use Rattle.svm_model.specs.Formats.LawfulImages.{IsLawfulImage};
ghost use Rattle.svm_model.specs.Formats.Script.{IsLawful, events_of};
ghost use Rattle.svm_model.specs.Machine.Shapes.{image_shape, world_shape};
ghost use Rattle.svm_run.specs.Answers.{Ends, EndsPrinting, EndsRun, HasCause, IsBeforeRun, IsDetermined, MayEndAsked, ReceivesLine};
ghost use Rattle.svm_run.specs.Jobs.{job, job_of, Job};
ghost use Rattle.svm_run.specs.Outcome.{outcome_of, outcome_after, completed, status_by, PrintsReport};
ghost use Rattle.svm_run.specs.StatusLine.{status_line};
ghost use Rattle.svm_run.specs.Statuses.{meaning_of};
ghost use Rattle.svm_run.specs.Stops.{status_of, AreRead, AreReadFor};
ghost use Rattle.svm_run.specs.Words.{asked_of};
ghost use Rattle.svm_model.specs.Machine.Bus.{Bus as BusRecord};
ghost use Rattle.svm_model.specs.Machine.World.{world_of};
ghost use Rattle.svm_model.specs.Formats.VerdictText.{verdict_text as verdict_line};

use crate::inputs::{open_image, open_script};
use crate::made::run_made;
use crate::printing::{print_last, refuse};
use crate::report::{end_status, report};
use crate::running::{Dumps, RunFault, Teller, run_events};
use crate::status::{OutsideFault, Status};
use crate::tracing::Blocks;
use crate::words::{Asked, Work, read_words};
use auditor::{Verdict, audit};
use byte_shelf::{Shelf, Sink, SinkRefusal};
use host_memory::Steps;
use image_format::Image;
use plain_machine::PlainMachine;
use port_bus::{Bus, BusState, Ports, RunEnd};
use report_text::{Tracer, verdict_text};
use script_format::Script;
use std::alloc::Global;
use std::sync::ledger::Ledger;
use workload::{made_image, made_script};

/// Prints the report of an image's machine that has run all events.
#[tactic(auto, unfolding(crate::specs::Outcome::outcome_after))]
fn finish<B: Ports, K: Sink>(
    alloc: Global,
    machine: &PlainMachine,
    image: &Image,
    bus: &B,
    sink: &mut K,
) -> Status
    requires lawful { IsLawfulImage image.now }
    requires shape { world_shape machine.now.world ≡ image_shape image.now }
    ensures { EndsPrinting (outcome_after [] (record { world = machine.now.world; bus = B.bus bus.now })).status result
        (outcome_after [] (record { world = machine.now.world; bus = B.bus bus.now })).text (K.written sink.old) (K.written sink.new)
        (Rose (K.faults sink.old) (K.faults sink.new) ⊎ Rose (K.refusals sink.old) (K.refusals sink.new)) (K.faults sink.old) (K.faults sink.new) }
{
    let Ok(text) = report(alloc, machine, image, bus.writes()) else {
        return refuse(sink, Status::NoMemory);
    };
    print_last(sink, &text, end_status(machine, image))
}

/// The status of a run that ended early.
fn status_of(fault: RunFault) -> Status
    ensures { result ≡ status_of fault }
{
    match fault {
        RunFault::NoMemory
        | RunFault::Bus(RunEnd::NoMemory)
        | RunFault::Unprinted(SinkRefusal::NoMemory) => Status::NoMemory,
        RunFault::Bus(RunEnd::Device { device }) => {
            Status::OutsideFault(OutsideFault::Device { device })
        }
        RunFault::Unprinted(SinkRefusal::Failed) => Status::OutsideFault(OutsideFault::Write),
    }
}

/// Runs a script on the machine of an image, which is opened, and prints the report behind what is told of the events. Where
/// the run ends early only the line of the status comes, of which a fault of writing has none.
#[tactic(auto, using(crate::proofs::Stops::stops))]
fn run_told<T: Teller, B: Ports, K: Sink, L: Ledger>(
    alloc: Global,
    teller: &mut T,
    image: &Image,
    script: &Script,
    bus: &mut B,
    sink: &mut K,
    steps: &mut Steps<L>,
) -> Status
    requires report { PrintsReport T.work }
    requires ready { T.ready teller.old (world_of image.now) }
    requires lawful { IsLawfulImage image.now }
    requires script { IsLawful (image_shape image.now) script.now }
    requires count { length (events_of image.now.cpus script.now) ≡ script.now.events }
    ensures exact { IsDetermined result → result ≡ (completed (B.bus bus.old) (job T.work image.now script.now)).status }
    ensures run { IsBeforeRun result → ⊥ }
    ensures ends { EndsRun (meaning_of result) (status_line result) (job T.work image.now script.now) (B.bus bus.old) (B.bus bus.new) (K.written sink.old) (K.written sink.new)
        (Rose (K.faults sink.old) (K.faults sink.new) ⊎ Rose (K.refusals sink.old) (K.refusals sink.new)) }
    ensures cause { (s t : ℕ) → HasCause (meaning_of result).blame s t (K.faults sink.old) (K.faults sink.new) (B.faults bus.old) (B.faults bus.new) }
    ensures steps { AreRead T.work steps.old steps.new (completed (B.bus bus.old) (job T.work image.now script.now)).events }
    ensures most_steps { AreRead T.work steps.old steps.new 1048576 }
{
    let Ok(mut machine) = PlainMachine::open(alloc, image) else {
        return refuse(sink, Status::NoMemory);
    };
    match run_events(teller, &mut machine, script, image.cpus, bus, sink, steps) {
        Ok(()) => finish(alloc, &machine, image, bus, sink),
        Err(fault) => refuse(sink, status_of(fault)),
    }
}

/// Prints a verdict.
fn print_verdict<K: Sink>(alloc: Global, verdict: &Verdict, sink: &mut K) -> Status
    ensures { EndsPrinting (status_by verdict.now) result (verdict_line verdict.now) (K.written sink.old) (K.written sink.new)
        (Rose (K.faults sink.old) (K.faults sink.new) ⊎ Rose (K.refusals sink.old) (K.refusals sink.new)) (K.faults sink.old) (K.faults sink.new) }
{
    let Ok(text) = verdict_text(alloc, verdict) else {
        return refuse(sink, Status::NoMemory);
    };
    let status = match verdict {
        Verdict::Keeps { .. } => Status::Done,
        Verdict::Breach(_) => Status::Breach,
    };
    print_last(sink, &text, status)
}

/// Runs a script on the machine of an image, and tells of its events as is asked for, or audits it, or both as of generated
/// input.
#[tactic(auto, using(crate::proofs::Stops::stops))]
fn run_job<B: Ports, K: Sink, L: Ledger>(
    alloc: Global,
    work: Work,
    image: &Image,
    script: &Script,
    bus: &mut B,
    sink: &mut K,
    steps: &mut Steps<L>,
) -> Status
    requires lawful { IsLawfulImage image.now }
    requires script { IsLawful (image_shape image.now) script.now }
    requires count { length (events_of image.now.cpus script.now) ≡ script.now.events }
    ensures exact { IsDetermined result → result ≡ (completed (B.bus bus.old) (job work image.now script.now)).status }
    ensures run { IsBeforeRun result → ⊥ }
    ensures ends { EndsRun (meaning_of result) (status_line result) (job work image.now script.now) (B.bus bus.old) (B.bus bus.new) (K.written sink.old) (K.written sink.new)
        (Rose (K.faults sink.old) (K.faults sink.new) ⊎ Rose (K.refusals sink.old) (K.refusals sink.new)) }
    ensures cause { (s t : ℕ) → HasCause (meaning_of result).blame s t (K.faults sink.old) (K.faults sink.new) (B.faults bus.old) (B.faults bus.new) }
    ensures steps { AreRead work steps.old steps.new (completed (B.bus bus.old) (job work image.now script.now)).events }
    ensures most_steps { AreRead work steps.old steps.new 1048576 }
{
    match work {
        Work::Run => run_told(alloc, &mut Dumps { alloc }, image, script, bus, sink, steps),
        Work::Trace => {
            let Ok(tracer) = Tracer::new(alloc, image) else {
                return refuse(sink, Status::NoMemory);
            };
            let mut blocks = Blocks { alloc, tracer };
            run_told(alloc, &mut blocks, image, script, bus, sink, steps)
        }
        Work::Audit => match audit(alloc, image, script, bus, steps) {
            Ok(verdict) => print_verdict(alloc, &verdict, sink),
            Err(end) => refuse(sink, status_of(RunFault::Bus(end))),
        },
        Work::Made(numbers) => run_made(alloc, numbers, image, script, sink, steps),
    }
}

/// Does the job that the words name: `run IMAGE SCRIPT` reads an image and a script from the shelf, runs the script's
/// events on the machine of the image beside the bus of port devices, prints the line of each dump to the sink at its event,
/// and the report behind the last; `trace IMAGE SCRIPT` does the same, but prints a block of lines at each event. `audit IMAGE
/// SCRIPT` runs them and prints the verdict on the run, and `made SEED SIZE` makes its input, runs and audits it on a bus of
/// its own, and prints the summary.
///
/// Where the shelf tells its files, the status is that of `outcome_of`, unless something outside failed or memory ran out,
/// and what the bus and the sink are left with is what the status means (`Ends`). A refusal is told by its line, and the
/// status stands whatever the sink says to that.
#[tactic(auto, using(crate::proofs::Stops::stops))]
pub fn svm_run<H: Shelf, K: Sink, L: Ledger, M: Ledger>(
    alloc: Global,
    words: &[&str],
    shelf: &mut H,
    bus: &mut Bus,
    sink: &mut K,
    steps: &mut Steps<L>,
    entries: &mut Steps<M>,
) -> Status
    // The words, and the bytes where they are told, determine the status, unless something outside is to blame.
    ensures words { asked_of (map (λ w. w.now) words.now) ≡ None → result ≡ Status.Words }
    ensures only_words { result ≡ Status.Words → asked_of (map (λ w. w.now) words.now) ≡ None }
    ensures exact { IfSome (H.files shelf.old) (λ _. IsDetermined result →
        result ≡ (outcome_of (⟦<Bus as BusState>⟧.bus bus.old) (H.files shelf.old) (map (λ w. w.now) words.now)).status) }
    // A breach comes of an audit alone, and an end of a guest is told of what is run to a report or a summary.
    ensures works { MayEndAsked result (asked_of (map (λ w. w.now) words.now)) }
    // What is blamed counted a fault in this call.
    ensures cause { HasCause (meaning_of result).blame (H.faults shelf.old) (H.faults shelf.new) (K.faults sink.old) (K.faults sink.new)
        (⟦<Bus as BusState>⟧.faults bus.old) (⟦<Bus as BusState>⟧.faults bus.new) }

    // How far the run came, and so where the bus is and what was printed.
    ensures ends { IfSome (H.files shelf.old) (λ _. Ends result (job_of (H.files shelf.old) (map (λ w. w.now) words.now))
        (⟦<Bus as BusState>⟧.bus bus.old) (⟦<Bus as BusState>⟧.bus bus.new) (K.written sink.old) (K.written sink.new)
        (Rose (K.faults sink.old) (K.faults sink.new) ⊎ Rose (K.refusals sink.old) (K.refusals sink.new))) }

    // Before a run the bus is untouched and the line alone is printed, also where the shelf tells nothing.
    ensures untouched { IsBeforeRun result → ⟦<Bus as BusState>⟧.bus bus.new ≡ ⟦<Bus as BusState>⟧.bus bus.old }
    ensures line { IsBeforeRun result → ReceivesLine (K.written sink.old) (K.written sink.new) (status_line result)
        (Rose (K.faults sink.old) (K.faults sink.new) ⊎ Rose (K.refusals sink.old) (K.refusals sink.new)) }

    // At most 6368 reads are counted for each event of a run, of which there are at most 1,048,576; a trace has no bound. The
    // shelf is called for as many bytes as its two files may have at most, and for each file twice more.
    ensures steps { IfSome (H.files shelf.old) (λ _. AreReadFor (asked_of (map (λ w. w.now) words.now))
        steps.old steps.new (outcome_of (⟦<Bus as BusState>⟧.bus bus.old) (H.files shelf.old) (map (λ w. w.now) words.now)).events) }
    ensures most_steps { AreReadFor (asked_of (map (λ w. w.now) words.now)) steps.old steps.new 1048576 }
    ensures calls { H.calls shelf.new ≤ H.calls shelf.old + 68157444 }
    ensures entries { entries.new ≡ entries.old }
{
    let Some(asked) = read_words(words) else {
        return refuse(sink, Status::Words);
    };
    match asked {
        Asked::Files {
            work,
            image,
            script,
        } => {
            let image = match open_image(alloc, shelf, image) {
                Ok(image) => image,
                Err(status) => return refuse(sink, status),
            };
            let script = match open_script(alloc, shelf, script, &image) {
                Ok(script) => script,
                Err(status) => return refuse(sink, status),
            };
            run_job(alloc, work, &image, &script, bus, sink, steps)
        }
        Asked::Made(numbers) => {
            let Ok(image) = made_image(alloc, numbers.seed, numbers.size) else {
                return refuse(sink, Status::NoMemory);
            };
            let Ok(script) = made_script(alloc, numbers.size) else {
                return refuse(sink, Status::NoMemory);
            };
            let work = Work::Made(numbers);
            run_job(alloc, work, &image, &script, bus, sink, steps)
        }
    }
}
