// The line of an event.
ghost use Rattle.std.specs.Prelude.{◌≡◌, codes, IfOk, string_bytes};
ghost use Rattle.std.specs.Fmt.{decimal};
ghost use Rattle.svm_model.specs.Formats.Text.{◌⧺◌, hex};
ghost use Rattle.svm_model.specs.Formats.Trace.{event_line, event_name, id_text, ran_text};

use std::alloc::{AllocError, Global};
use svm_model::{CpuId, Event, NoMemory, VcpuId};

/// The line `event N NAME ..` of an event with its number: its name and its numbers, which are decimal but for a value and
/// a vector. A run also tells the vcpu that its turn was given to, or `none`, and a dump its guest alone.
pub fn event_text(
    alloc: Global,
    number: u32,
    event: Event,
    ran: Option<VcpuId>,
) -> Result<Vec<u8>, NoMemory>
    ensures { IfOk result (λ text. text.items ≡ event_line number event ran) }
{
    let Ok(text) = format_event(alloc, number, event, ran) else {
        return Err(NoMemory);
    };
    Ok(text.into_bytes())
}

#[tactic(auto, unfolding(svm_model::specs::Formats::Trace::event_line))]
fn format_event(
    alloc: Global,
    number: u32,
    event: Event,
    ran: Option<VcpuId>,
) -> Result<String, AllocError>
    ensures { IfOk result (λ text. string_bytes text ≡ event_line number event ran) }
{
    let name = format_name(alloc, event, ran)?;
    let name = name.as_str();
    format!(in alloc; "event {number} {name}\n")
}

/// What an event is called, with what it is about.
fn format_name(alloc: Global, event: Event, ran: Option<VcpuId>) -> Result<String, AllocError>
    ensures { IfOk result (λ text. string_bytes text ≡ event_name ran event) }
{
    match event {
        Event::Place { cpu, vcpu } => format_place(alloc, cpu, vcpu),
        Event::Run { cpu } => format_run(alloc, cpu, ran),
        Event::Feed { device, value } => format!(in alloc; "feed {device} {value:x}"),
        Event::Irq { vcpu, vector } => format_irq(alloc, vcpu, vector),
        Event::Nmi { vcpu } => format_nmi(alloc, vcpu),
        Event::Unplug { device } => format!(in alloc; "unplug {device}"),
        Event::Dump { guest, .. } => {
            let guest = guest.0;
            format!(in alloc; "dump {guest}")
        }
    }
}

fn format_place(alloc: Global, cpu: CpuId, vcpu: VcpuId) -> Result<String, AllocError>
    ensures { IfOk result (λ text. string_bytes text ≡ codes "place " ⧺ decimal cpu.0 ⧺ codes " " ⧺ id_text vcpu) }
{
    let cpu = cpu.0;
    let vcpu = format_id(alloc, vcpu)?;
    let vcpu = vcpu.as_str();
    format!(in alloc; "place {cpu} {vcpu}")
}

fn format_run(alloc: Global, cpu: CpuId, ran: Option<VcpuId>) -> Result<String, AllocError>
    ensures { IfOk result (λ text. string_bytes text ≡ codes "run " ⧺ decimal cpu.0 ⧺ codes " " ⧺ ran_text ran) }
{
    let cpu = cpu.0;
    let ran = format_ran(alloc, ran)?;
    let ran = ran.as_str();
    format!(in alloc; "run {cpu} {ran}")
}

fn format_irq(alloc: Global, vcpu: VcpuId, vector: u8) -> Result<String, AllocError>
    ensures { IfOk result (λ text. string_bytes text ≡ codes "irq " ⧺ id_text vcpu ⧺ codes " " ⧺ hex vector) }
{
    let vcpu = format_id(alloc, vcpu)?;
    let vcpu = vcpu.as_str();
    format!(in alloc; "irq {vcpu} {vector:x}")
}

fn format_nmi(alloc: Global, vcpu: VcpuId) -> Result<String, AllocError>
    ensures { IfOk result (λ text. string_bytes text ≡ codes "nmi " ⧺ id_text vcpu) }
{
    let vcpu = format_id(alloc, vcpu)?;
    let vcpu = vcpu.as_str();
    format!(in alloc; "nmi {vcpu}")
}

/// The vcpu that a turn was given to.
fn format_ran(alloc: Global, ran: Option<VcpuId>) -> Result<String, AllocError>
    ensures { IfOk result (λ text. string_bytes text ≡ ran_text ran) }
{
    match ran {
        None => format!(in alloc; "none"),
        Some(vcpu) => format_id(alloc, vcpu),
    }
}

/// A vcpu by its guest and its place there.
pub(crate) fn format_id(alloc: Global, vcpu: VcpuId) -> Result<String, AllocError>
    ensures { IfOk result (λ text. string_bytes text ≡ id_text vcpu) }
{
    let guest = vcpu.guest.0;
    let index = vcpu.index;
    format!(in alloc; "{guest}.{index}")
}
