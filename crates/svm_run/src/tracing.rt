// Tells of each event by a block: its line, the vcpu that ran, the memory that changed, what went out, an end, and a dump.
ghost use Rattle.std.specs.Prelude.{◌≡◌, ℕ, ◌+◌, ◌*◌, ◌≤◌, ◌<◌, ◌++◌, List, [], drop, false, length, slice_get, slice_set, OnOk, OnErr, IfOk, IfErr};
ghost use Rattle.std.specs.List.{flat_map};
ghost use Rattle.std.specs.Option.{MatchOption};
ghost use Rattle.svm_model.specs.Formats.Text.{out_line};
ghost use Rattle.svm_model.specs.Formats.Trace.{block, changed_lines, end_line, event_line, memory_lines, shown_line};
ghost use Rattle.svm_model.specs.Machine.Events.{plain_event};
ghost use Rattle.svm_model.specs.Machine.Runs.{HandsOver};
ghost use Rattle.svm_model.specs.Machine.Shapes.{world_shape, IsNamed};
ghost use Rattle.svm_model.specs.Memory.Bytes.{page_at, put_at};
ghost use Rattle.port_bus.specs.Causes.{Blames, NoneFell};
ghost use Rattle.plain_machine.specs.Marks.{is_written};
ghost use Rattle.svm_run.specs.Blocks.{copies_after, copy_of, memories_in, memory_in, ran_lines, IsCopied, MayHaveRun};
ghost use Rattle.svm_run.specs.declared.words.Work.{Work as WorkRecord};

use crate::dumps::text_of;
use crate::report::{push_text, push_vcpu};
use crate::running::{RunFault, Teller};
use crate::unwatched::do_event;
use byte_shelf::{Sink, SinkRefusal, write_all};
use host_memory::Steps;
use plain_machine::PlainMachine;
use port_bus::{PortWrite, Ports, RunEnd};
use report_text::{Tracer, event_text, guest_text, memory_text, out_text};
use std::alloc::Global;
use std::marker::Model;
use std::sync::ledger::Ledger;
use vm_names::{Effect, Event, GuestId, NoMemory, VcpuId};

/// Tells of each event by a block. It keeps a second copy of the memory of all guests, as the last event left it.
#[derive(Drop)]
pub struct Blocks {
    pub alloc: Global,
    pub tracer: Tracer,
}

impl Model for Blocks {
    ghost use Rattle.std.specs.Prelude.{ℕ, List};

    ghost Value = { List (List ℕ) };

    ghost view = { λ b. b.tracer };
}

/// An event that was done: its number and what it did.
#[derive(Clone, Copy)]
pub struct Done {
    pub number: u32,
    pub event: Event,
    pub effect: Effect,
}

/// Appends the lines of what changed in a page, which the copy takes over.
fn push_written<L: Ledger>(
    text: &mut Vec<u8>,
    blocks: &mut Blocks,
    machine: &PlainMachine,
    guest: GuestId,
    page: u32,
    steps: &mut Steps<L>,
) -> Result<(), NoMemory>
    requires there { guest.0 < length machine.now.world.guests }
    requires copied { guest.0 < length blocks.old }
    requires page { 4096 * page + 4096 ≤ length (memory_in machine.now.world guest.0) }
    requires copied_page { 4096 * page + 4096 ≤ length (copy_of blocks.old guest.0) }
    ensures text { OnOk result (text.new.items ≡ text.old.items ++ changed_lines guest.0 (4096 * page) [] (page_at (copy_of blocks.old guest.0) page) (page_at (memory_in machine.now.world guest.0) page)) }
    ensures copies { OnOk result (blocks.new ≡ slice_set blocks.old guest.0 (put_at (copy_of blocks.old guest.0) (4096 * page) (page_at (memory_in machine.now.world guest.0) page))) }
    ensures later { steps.old ≤ steps.new }
{
    let address = 4096 * u64::from(page);
    let new = machine.page(guest, page, steps);
    let old = blocks.tracer.page(guest, page);
    let lines = memory_text(blocks.alloc, guest, address, old, new)?;
    blocks.tracer.put(guest, page, new);
    push_text(text, &lines)
}

/// The same of a page that is read and compared only where it is marked as written.
fn push_page<L: Ledger>(
    text: &mut Vec<u8>,
    blocks: &mut Blocks,
    machine: &PlainMachine,
    guest: GuestId,
    page: u32,
    steps: &mut Steps<L>,
) -> Result<(), NoMemory>
    requires there { guest.0 < length machine.now.world.guests }
    requires copied { guest.0 < length blocks.old }
    requires page { 4096 * page + 4096 ≤ length (memory_in machine.now.world guest.0) }
    requires copied_page { 4096 * page + 4096 ≤ length (copy_of blocks.old guest.0) }
    requires told { is_written machine.now guest.0 page ≡ false → page_at (memory_in machine.now.world guest.0) page ≡ page_at (copy_of blocks.old guest.0) page }
    ensures text { OnOk result (text.new.items ≡ text.old.items ++ changed_lines guest.0 (4096 * page) [] (page_at (copy_of blocks.old guest.0) page) (page_at (memory_in machine.now.world guest.0) page)) }
    ensures copies { OnOk result (blocks.new ≡ slice_set blocks.old guest.0 (put_at (copy_of blocks.old guest.0) (4096 * page) (page_at (memory_in machine.now.world guest.0) page))) }
    ensures later { steps.old ≤ steps.new }
{
    if machine.page_written(guest, page) {
        push_written(text, blocks, machine, guest, page, steps)
    } else {
        Ok(())
    }
}

/// Appends the lines of what changed in a guest's memory, which the copy takes over. Only pages that are marked as written are
/// read and compared.
fn push_changes<L: Ledger>(
    text: &mut Vec<u8>,
    blocks: &mut Blocks,
    machine: &PlainMachine,
    guest: GuestId,
    steps: &mut Steps<L>,
) -> Result<(), NoMemory>
    requires { IsCopied blocks.old machine.now guest.0 }
    ensures text { OnOk result (text.new.items ≡ text.old.items ++ memory_lines guest.0 (copy_of blocks.old guest.0) (memory_in machine.now.world guest.0)) }
    ensures copies { OnOk result (blocks.new ≡ slice_set blocks.old guest.0 (memory_in machine.now.world guest.0)) }
    ensures later { steps.old ≤ steps.new }
{
    for page in 0..machine.page_count(guest) {
        push_page(text, blocks, machine, guest, page, steps)?;
    }
    Ok(())
}

/// Appends what is told of the vcpu that ran, if one did: its line, and what changed in its guest's memory.
fn push_ran<L: Ledger>(
    text: &mut Vec<u8>,
    blocks: &mut Blocks,
    machine: &PlainMachine,
    ran: Option<VcpuId>,
    steps: &mut Steps<L>,
) -> Result<(), NoMemory>
    requires { MayHaveRun blocks.old machine.now ran }
    ensures text { OnOk result (text.new.items ≡ text.old.items ++ ran_lines blocks.old machine.now.world ran) }
    ensures copies { OnOk result (blocks.new ≡ copies_after blocks.old machine.now.world ran) }
    ensures later { steps.old ≤ steps.new }
{
    let Some(vcpu) = ran else {
        return Ok(());
    };
    push_vcpu(blocks.alloc, text, machine, vcpu)?;
    push_changes(text, blocks, machine, vcpu.guest, steps)
}

/// Appends the lines of writes to ports.
#[tactic(auto, using(std::proofs::lemmas::List::take_more, std::proofs::lemmas::List::flat_map_more))]
fn push_sent(alloc: Global, text: &mut Vec<u8>, writes: &[PortWrite]) -> Result<(), NoMemory>
    ensures { OnOk result (text.new.items ≡ text.old.items ++ flat_map out_line writes.now) }
{
    for write in writes {
        let line = out_text(alloc, write)?;
        push_text(text, &line)?;
    }
    Ok(())
}

/// Appends the line of the guest of the vcpu that ran, where it was ended.
fn push_end(alloc: Global, text: &mut Vec<u8>, effect: Effect) -> Result<(), NoMemory>
    ensures { OnOk result (text.new.items ≡ text.old.items ++ end_line effect.vcpu effect.ended) }
{
    if let Some(vcpu) = effect.vcpu {
        if effect.ended.is_some() {
            let line = guest_text(alloc, vcpu.guest, effect.ended)?;
            push_text(text, &line)?;
        }
    }
    Ok(())
}

/// The block of an event that the machine has done, up to the line of a dump: with the writes to ports that it made.
fn block_text<L: Ledger>(
    blocks: &mut Blocks,
    machine: &PlainMachine,
    done: &Done,
    writes: &[PortWrite],
    steps: &mut Steps<L>,
) -> Result<Vec<u8>, NoMemory>
    requires { MayHaveRun blocks.old machine.now done.now.effect.vcpu }
    ensures text { IfOk result (λ text. text.items ≡ event_line done.now.number done.now.event done.now.effect.vcpu ++ ran_lines blocks.old machine.now.world done.now.effect.vcpu
        ++ flat_map out_line writes.now ++ end_line done.now.effect.vcpu done.now.effect.ended) }
    ensures copies { OnOk result (blocks.new ≡ copies_after blocks.old machine.now.world done.now.effect.vcpu) }
    ensures later { steps.old ≤ steps.new }
{
    let mut text = event_text(blocks.alloc, done.number, done.event, done.effect.vcpu)?;
    push_ran(&mut text, blocks, machine, done.effect.vcpu, steps)?;
    push_sent(blocks.alloc, &mut text, writes)?;
    push_end(blocks.alloc, &mut text, done.effect)?;
    Ok(text)
}

/// Appends the line of a dump, where there is one.
fn push_shown(text: &mut Vec<u8>, shown: Option<Vec<u8>>) -> Result<(), NoMemory>
    ensures { (line : List ℕ) → MatchOption shown ([] ≡ line) (λ text. text.items ≡ line) → OnOk result (text.new.items ≡ text.old.items ++ line) }
{
    match shown {
        None => Ok(()),
        Some(line) => push_text(text, &line),
    }
}

/// The block of an event that the machine has done, with the line of a dump where it is one.
fn whole_text<L: Ledger>(
    blocks: &mut Blocks,
    machine: &PlainMachine,
    done: &Done,
    writes: &[PortWrite],
    shown: Option<Vec<u8>>,
    steps: &mut Steps<L>,
) -> Result<Vec<u8>, NoMemory>
    requires { MayHaveRun blocks.old machine.now done.now.effect.vcpu }
    ensures text { (line : List ℕ) → MatchOption shown ([] ≡ line) (λ text. text.items ≡ line) →
        IfOk result (λ text. text.items ≡ event_line done.now.number done.now.event done.now.effect.vcpu ++ ran_lines blocks.old machine.now.world done.now.effect.vcpu
        ++ flat_map out_line writes.now ++ end_line done.now.effect.vcpu done.now.effect.ended ++ line) }
    ensures copies { OnOk result (blocks.new ≡ copies_after blocks.old machine.now.world done.now.effect.vcpu) }
    ensures later { steps.old ≤ steps.new }
{
    let mut text = block_text(blocks, machine, done, writes, steps)?;
    push_shown(&mut text, shown)?;
    Ok(text)
}

/// The writes behind so many.
fn behind(writes: &[PortWrite], count: usize) -> &[PortWrite]
    ensures { result.now ≡ drop count writes.now }
{
    if count <= writes.len() {
        &writes[count..]
    } else {
        &[]
    }
}

/// Does an event, whose dump is there already, and makes its block.
fn happen<B: Ports, L: Ledger>(
    blocks: &mut Blocks,
    machine: &mut PlainMachine,
    event: Event,
    bus: &mut B,
    shown: Option<Vec<u8>>,
    steps: &mut Steps<L>,
) -> Result<Result<Vec<u8>, NoMemory>, RunEnd>
    requires ready { blocks.old ≡ memories_in machine.old.world.guests }
    requires named { IsNamed (world_shape machine.old.world) event }
    requires few { machine.old.world.event < 1048576 }
    requires going { machine.old.stopped ≡ false }
    requires shown { MatchOption shown ([] ≡ shown_line machine.old.world event) (λ text. text.items ≡ shown_line machine.old.world event) }
    ensures text { IfOk result (λ told. IfOk told (λ text. text.items ≡ block machine.old.world (B.bus bus.old) event)) }
    ensures copies { IfOk result (λ told. OnOk told (blocks.new ≡ memories_in machine.new.world.guests)) }
    ensures world { OnOk result (machine.new.world ≡ (plain_event machine.old.world (B.bus bus.old) event).world) }
    ensures bus { OnOk result (B.bus bus.new ≡ (plain_event machine.old.world (B.bus bus.old) event).bus) }
    ensures going { OnOk result (machine.new.stopped ≡ false) }
    ensures number { OnOk result (machine.new.world.event ≡ machine.old.world.event + 1) }
    ensures hands_over { OnErr result ((call : ℕ) × HandsOver call machine.old.world (B.bus bus.old) event) }
    ensures kept { OnErr result (B.bus bus.new ≡ B.bus bus.old) }
    ensures blamed { IfErr result (λ end. Blames end (B.faults bus.old) (B.faults bus.new)) }
    ensures none_fell { NoneFell (B.faults bus.old) (B.faults bus.new) }
    ensures shape { world_shape machine.new.world ≡ world_shape machine.old.world }
    ensures later { steps.old ≤ steps.new }
{
    let number = machine.event_number();
    let before = bus.writes().len();
    let _ = machine.is_well_formed();
    machine.mark_unchanged();
    let effect = match do_event(machine, event, bus, steps) {
        Ok(effect) => effect,
        Err(end) => return Err(end),
    };
    let done = Done {
        number,
        event,
        effect,
    };
    let writes = behind(bus.writes(), before);
    Ok(whole_text(blocks, machine, &done, writes, shown, steps))
}

impl Teller for Blocks {
    ghost work = { WorkRecord.Trace };

    ghost ready = { λ copies world. copies ≡ memories_in world.guests };

    /// It reads the pages that were written in the event besides.
    #[tactic(auto, using(crate::proofs::TracedLemmas::traced, port_bus::proofs::Counts::counts))]
    fn tell<B: Ports, K: Sink, L: Ledger>(
        &mut self,
        machine: &mut PlainMachine,
        event: Event,
        bus: &mut B,
        sink: &mut K,
        steps: &mut Steps<L>,
    ) -> Result<(), RunFault> {
        let Ok(shown) = text_of(self.alloc, machine, event, steps) else {
            return Err(RunFault::NoMemory);
        };
        let text = match happen(self, machine, event, bus, shown, steps) {
            Ok(Ok(text)) => text,
            Ok(Err(NoMemory)) => return Err(RunFault::Unprinted(SinkRefusal::NoMemory)),
            Err(end) => return Err(RunFault::Bus(end)),
        };
        match write_all(sink, &text) {
            Ok(()) => Ok(()),
            Err(refusal) => Err(RunFault::Unprinted(refusal)),
        }
    }
}
