// The report of a run.
ghost use Rattle.std.specs.Prelude.{◌≡◌, ◌<◌, ◌++◌, List, [], ◌∷◌, Option, Some, length, slice_get, IfOk, OnOk};
ghost use Rattle.std.specs.Option.{option_map};
ghost use Rattle.svm_model.specs.Machine.Bus.{Device};
ghost use Rattle.svm_model.specs.Machine.Guest.{level_in};
ghost use Rattle.svm_model.specs.Machine.Shapes.{image_shape, world_shape, IsVcpu};
ghost use Rattle.svm_model.specs.Formats.LawfulImages.{IsLawfulImage};
ghost use Rattle.svm_model.specs.Formats.Text.{guest_lines, report as report_of, vcpu_line, vcpu_lines};
ghost use Rattle.plain_machine.specs.Machines.{guest_in, vcpu_in};
ghost use Rattle.svm_run.specs.Outcome.{has_ended as ended_test, status_ended};

use crate::status::Status;
use image_format::Image;
use plain_machine::PlainMachine;
use port_bus::PortWrite;
use report_text::{events_text, guest_text, outs_text, vcpu_text};
use std::alloc::Global;
use vm_names::{GuestId, NoMemory, VcpuId};

/// The number of an image's guests.
fn guest_count(image: &Image) -> u8
    requires { IsLawfulImage image.now }
    ensures { result ≡ length image.now.guests }
{
    image.guests.len() as u8
}

/// The number of a guest's vcpus.
pub fn vcpu_count(image: &Image, guest: GuestId) -> u8
    requires lawful { IsLawfulImage image.now }
    requires there { guest.0 < length image.now.guests }
    ensures { slice_get (image_shape image.now).vcpus guest.0 ≡ Some result }
{
    image.guests[usize::from(guest.0)].vcpus.len() as u8
}

/// Appends a text to another.
pub fn push_text(text: &mut Vec<u8>, more: &[u8]) -> Result<(), NoMemory>
    ensures { OnOk result (text.new.items ≡ text.old.items ++ more.now) }
{
    if text.extend_from_slice(more).is_err() {
        return Err(NoMemory);
    }
    Ok(())
}

/// Appends the line of a vcpu.
pub fn push_vcpu(
    alloc: Global,
    text: &mut Vec<u8>,
    machine: &PlainMachine,
    vcpu: VcpuId,
) -> Result<(), NoMemory>
    requires { IsVcpu (world_shape machine.now.world) vcpu }
    ensures { OnOk result (option_map (λ v. text.old.items ++ vcpu_line vcpu.guest.0 vcpu.index (level_in v.inside) v.halted v.registers)
        (vcpu_in machine.now.world vcpu) ≡ Some text.new.items) }
{
    let registers = machine.registers(vcpu);
    let level = machine.level(vcpu);
    let line = vcpu_text(alloc, vcpu, level, machine.is_halted(vcpu), registers)?;
    push_text(text, &line)
}

/// Appends the lines of a guest's vcpus, of which there are so many.
fn push_vcpus(
    alloc: Global,
    text: &mut Vec<u8>,
    machine: &PlainMachine,
    guest: GuestId,
    count: u8,
) -> Result<(), NoMemory>
    requires { slice_get (world_shape machine.now.world).vcpus guest.0 ≡ Some count }
    ensures { OnOk result (option_map (λ g. text.old.items ++ vcpu_lines guest.0 0 g.vcpus) (guest_in machine.now.world guest) ≡ Some text.new.items) }
{
    for index in 0..count {
        push_vcpu(alloc, text, machine, VcpuId { guest, index })?;
    }
    Ok(())
}

/// Appends what is told of a guest with so many vcpus: its line, those of the vcpus, and those of its writes to ports.
fn push_guest(
    alloc: Global,
    text: &mut Vec<u8>,
    machine: &PlainMachine,
    guest: GuestId,
    count: u8,
    output: &[PortWrite],
) -> Result<(), NoMemory>
    requires { slice_get (world_shape machine.now.world).vcpus guest.0 ≡ Some count }
    ensures { OnOk result (option_map (λ g. text.old.items ++ guest_lines output.now guest.0 (g ∷ [])) (guest_in machine.now.world guest) ≡ Some text.new.items) }
{
    let line = guest_text(alloc, guest, machine.end_of(guest))?;
    push_text(text, &line)?;
    push_vcpus(alloc, text, machine, guest, count)?;
    let outs = outs_text(alloc, guest, output)?;
    push_text(text, &outs)
}

/// Appends what is told of each guest.
#[tactic(auto, using(crate::proofs::Reports::reports))]
fn push_guests(
    alloc: Global,
    text: &mut Vec<u8>,
    machine: &PlainMachine,
    image: &Image,
    output: &[PortWrite],
) -> Result<(), NoMemory>
    requires lawful { IsLawfulImage image.now }
    requires shape { world_shape machine.now.world ≡ image_shape image.now }
    ensures { OnOk result (text.new.items ≡ text.old.items ++ guest_lines output.now 0 machine.now.world.guests) }
{
    for number in 0..guest_count(image) {
        let guest = GuestId(number);
        let count = vcpu_count(image, guest);
        push_guest(alloc, text, machine, guest, count, output)?;
    }
    Ok(())
}

/// The report of an image's machine: the number of events, and what is told of each guest.
#[tactic(auto, unfolding(svm_model::specs::Formats::Text::report))]
pub fn report(
    alloc: Global,
    machine: &PlainMachine,
    image: &Image,
    output: &[PortWrite],
) -> Result<Vec<u8>, NoMemory>
    requires lawful { IsLawfulImage image.now }
    requires shape { world_shape machine.now.world ≡ image_shape image.now }
    ensures { (devices : List (Option Device)) →
        IfOk result (λ text. text.items ≡ report_of machine.now.world (record { devices = devices; output = output.now })) }
{
    let mut text = events_text(alloc, machine.event_number())?;
    push_guests(alloc, &mut text, machine, image, output)?;
    Ok(text)
}

/// Whether a guest of an image's machine was ended.
#[tactic(auto, using(crate::proofs::Reports::reports))]
fn has_ended(machine: &PlainMachine, image: &Image) -> bool
    requires lawful { IsLawfulImage image.now }
    requires shape { world_shape machine.now.world ≡ image_shape image.now }
    ensures { result ≡ ended_test machine.now.world.guests }
{
    for number in 0..guest_count(image) {
        if machine.end_of(GuestId(number)).is_some() {
            return true;
        }
    }
    false
}

/// The status of a run of all events.
pub fn end_status(machine: &PlainMachine, image: &Image) -> Status
    requires lawful { IsLawfulImage image.now }
    requires shape { world_shape machine.now.world ≡ image_shape image.now }
    ensures { result ≡ status_ended machine.now.world.guests }
{
    if has_ended(machine, image) {
        Status::LeftProfile
    } else {
        Status::Done
    }
}
