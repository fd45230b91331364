// What an event prints.
ghost use Rattle.std.specs.Prelude.{◌≡◌, ◌+◌, ◌≤◌, [], true, drop, take, slice_get, IfOk};
ghost use Rattle.std.specs.Option.{MatchOption};
ghost use Rattle.svm_model.specs.Machine.Shapes.{world_shape, IsNamed, IsShown};
ghost use Rattle.plain_machine.specs.Reads.{is_run};
ghost use Rattle.svm_model.specs.Formats.Trace.{memory_of, shown_line};

use host_memory::Steps;
use plain_machine::PlainMachine;
use report_text::dump_text;
use std::alloc::Global;
use std::sync::ledger::Ledger;
use vm_names::{Event, GuestId, NoMemory};

/// The bytes of a guest's memory from an address on, by one counted read each.
#[tactic(auto, using(crate::proofs::Shown::shown))]
fn bytes_of<L: Ledger>(
    alloc: Global,
    machine: &PlainMachine,
    guest: GuestId,
    address: u64,
    length: u16,
    steps: &mut Steps<L>,
) -> Result<Vec<u8>, NoMemory>
    requires { IsShown (world_shape machine.now.world) guest address length }
    ensures bytes { IfOk result (λ bytes. bytes.items ≡ take length (drop address (memory_of (slice_get machine.now.world.guests guest.0)))) }
    ensures cost { steps.new ≤ steps.old + length }
    ensures later { steps.old ≤ steps.new }
{
    let mut bytes = Vec::new(alloc);
    let mut at = address;
    for _place in 0..length {
        let Ok(byte) = machine.memory_byte(guest, at, steps) else {
            unreachable!();
        };
        let Ok(()) = bytes.push(byte) else {
            return Err(NoMemory);
        };
        at += 1;
    }
    Ok(bytes)
}

/// The line of a dump of a machine that has not done that event yet.
#[tactic(auto, unfolding(svm_model::specs::Formats::Trace::shown_line))]
fn line_of_dump<L: Ledger>(
    alloc: Global,
    machine: &PlainMachine,
    guest: GuestId,
    address: u64,
    length: u16,
    steps: &mut Steps<L>,
) -> Result<Vec<u8>, NoMemory>
    requires { IsShown (world_shape machine.now.world) guest address length }
    ensures text { IfOk result (λ text. text.items ≡ shown_line machine.now.world (Event.Dump guest address length)) }
    ensures cost { steps.new ≤ steps.old + 256 }
    ensures later { steps.old ≤ steps.new }
{
    let bytes = bytes_of(alloc, machine, guest, address, length, steps)?;
    dump_text(alloc, machine.event_number(), guest, address, &bytes)
}

/// What an event prints, which the machine has not done yet, where it prints: a dump its line. At most 256 reads are counted,
/// and none where a vcpu may take a turn.
#[tactic(auto, unfolding(svm_model::specs::Formats::Trace::shown_line))]
pub fn text_of<L: Ledger>(
    alloc: Global,
    machine: &PlainMachine,
    event: Event,
    steps: &mut Steps<L>,
) -> Result<Option<Vec<u8>>, NoMemory>
    requires { IsNamed (world_shape machine.now.world) event }
    ensures text { IfOk result (λ shown. MatchOption shown ([] ≡ shown_line machine.now.world event) (λ text. text.items ≡ shown_line machine.now.world event)) }
    ensures cost { steps.new ≤ steps.old + 256 }
    ensures still { is_run event ≡ true → steps.new ≡ steps.old }
    ensures later { steps.old ≤ steps.new }
{
    match event {
        Event::Dump {
            guest,
            address,
            length,
        } => match line_of_dump(alloc, machine, guest, address, length, steps) {
            Ok(line) => Ok(Some(line)),
            Err(refusal) => Err(refusal),
        },
        Event::Place { .. }
        | Event::Run { .. }
        | Event::Feed { .. }
        | Event::Irq { .. }
        | Event::Nmi { .. }
        | Event::Unplug { .. } => Ok(None),
    }
}
