// The summary of generated input.
ghost use Rattle.std.specs.Prelude.{◌≡◌, ◌++◌, Some, slice_get, IfOk, OnOk, string_bytes};
ghost use Rattle.std.specs.Option.{option_map};
ghost use Rattle.svm_model.specs.Formats.LawfulImages.{IsLawfulImage};
ghost use Rattle.svm_model.specs.Formats.VerdictText.{verdict_text as verdict_line};
ghost use Rattle.svm_model.specs.Machine.Shapes.{image_shape, world_shape, IsVcpu};
ghost use Rattle.plain_machine.specs.Machines.{guest_in, vcpu_in};
ghost use Rattle.svm_run.specs.Summary.{made_line, rax_line as line_of_rax, rax_lines, summary as summary_of};

use crate::report::{push_text, vcpu_count};
use crate::words::Numbers;
use auditor::Verdict;
use image_format::Image;
use plain_machine::PlainMachine;
use report_text::verdict_text;
use std::alloc::{AllocError, Global};
use svm_model::Registers;
use vm_names::{NoMemory, VcpuId};
use workload::GUEST;

#[tactic(auto, unfolding(crate::specs::Summary::made_line))]
fn format_made(alloc: Global, numbers: Numbers, events: u32) -> Result<String, AllocError>
    ensures { IfOk result (λ text. string_bytes text ≡ made_line numbers events) }
{
    let seed = numbers.seed;
    let size = numbers.size;
    format!(in alloc; "made seed={seed} size={size} events={events}\n")
}

/// The first line: what was made, and how many events were run.
fn made_text(alloc: Global, numbers: Numbers, events: u32) -> Result<Vec<u8>, NoMemory>
    ensures { IfOk result (λ text. text.items ≡ made_line numbers events) }
{
    let Ok(text) = format_made(alloc, numbers, events) else {
        return Err(NoMemory);
    };
    Ok(text.into_bytes())
}

#[tactic(auto, unfolding(crate::specs::Summary::rax_line))]
fn format_rax(alloc: Global, index: u8, registers: &Registers) -> Result<String, AllocError>
    ensures { IfOk result (λ text. string_bytes text ≡ line_of_rax index registers.now) }
{
    let rax = registers.general[0];
    format!(in alloc; "rax 0.{index}={rax:x}\n")
}

/// Appends the line with RAX of a vcpu.
fn push_rax(
    alloc: Global,
    text: &mut Vec<u8>,
    machine: &PlainMachine,
    index: u8,
) -> Result<(), NoMemory>
    requires { IsVcpu (world_shape machine.now.world) (record { guest = record { 0 = 0 }; index = index }) }
    ensures { OnOk result (option_map (λ v. text.old.items ++ line_of_rax index v.registers)
        (vcpu_in machine.now.world (record { guest = record { 0 = 0 }; index = index })) ≡ Some text.new.items) }
{
    let registers = machine.registers(VcpuId {
        guest: GUEST,
        index,
    });
    let Ok(line) = format_rax(alloc, index, registers) else {
        return Err(NoMemory);
    };
    push_text(text, line.as_bytes())
}

/// Appends these lines of the guest, which has so many vcpus.
fn push_guest(
    alloc: Global,
    text: &mut Vec<u8>,
    machine: &PlainMachine,
    count: u8,
) -> Result<(), NoMemory>
    requires { slice_get (world_shape machine.now.world).vcpus 0 ≡ Some count }
    ensures { OnOk result (option_map (λ g. text.old.items ++ rax_lines 0 g.vcpus) (guest_in machine.now.world (record { 0 = 0 })) ≡ Some text.new.items) }
{
    for index in 0..count {
        push_rax(alloc, text, machine, index)?;
    }
    Ok(())
}

/// The summary of generated input, from its machine behind the run.
#[tactic(auto, unfolding(crate::specs::Summary::summary))]
pub fn summary(
    alloc: Global,
    numbers: Numbers,
    machine: &PlainMachine,
    image: &Image,
    verdict: &Verdict,
) -> Result<Vec<u8>, NoMemory>
    requires lawful { IsLawfulImage image.now }
    requires shape { world_shape machine.now.world ≡ image_shape image.now }
    ensures { IfOk result (λ text. text.items ≡ summary_of numbers machine.now.world verdict.now) }
{
    let mut text = made_text(alloc, numbers, machine.event_number())?;
    push_guest(alloc, &mut text, machine, vcpu_count(image, GUEST))?;
    let line = verdict_text(alloc, verdict)?;
    push_text(&mut text, &line)?;
    Ok(text)
}
