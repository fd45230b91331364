// What VMLOAD and VMSAVE move.
ghost use Rattle.std.specs.Option.{IfNone, MatchOption};
ghost use Rattle.std.specs.Prelude.{◌≡◌, ℕ, ◌+◌, ◌^◌, ◌<◌, ◌≤◌, List, length, IfErr, IfOk};
ghost use Rattle.svm_model.specs.Memory.Bytes.{IsWithin, SameOutside, guest_of};
ghost use Rattle.svm_model.specs.Svm.Vmcb.{fields_in, with_fields};
ghost use Rattle.svm_model.specs.Svm.VmloadVmsave.{moved_at, vmloaded, vmsaved};

use crate::saves::save_all;
use host_memory::{GuestWindow, HostMemory, OutsideMemory, Steps};
use std::sync::ledger::Ledger;
use svm_model::{Field, Registers};
use vmcb_layout::{Fields, read_fields};

/// Where the page of a VMCB is not all in the guest's memory: the first address outside, from its field of FS on.
fn first_outside(window: GuestWindow, address: u64) -> Option<OutsideMemory>
    ensures outside { (bytes : List ℕ) → length bytes ≡ window.size → result ≡ moved_at bytes address }
    ensures inside { IfNone result (address + 4096 ≤ window.size) }
{
    if window.size < 4096 || address > window.size - 4096 {
        Some(OutsideMemory {
            address: address.wrapping_add(0x440).max(window.size),
        })
    } else {
        None
    }
}

/// FS, GS, TR and LDTR, KernelGsBase, and the MSRs of SYSCALL and SYSENTER.
#[tactic(auto, unfolding(svm_model::specs::Svm::VmloadVmsave::vmloaded), using(vmcb_layout::proofs::RegisterParts::registers))]
fn load(registers: &mut Registers, fields: &Fields)
    ensures { registers.new ≡ vmloaded fields.now registers.old }
{
    registers.fs = fields.segment(Field::FsSelector);
    registers.gs = fields.segment(Field::GsSelector);
    registers.tr = fields.segment(Field::TrSelector);
    registers.ldtr = fields.segment(Field::LdtrSelector);
    registers.kernel_gs = fields.value(Field::KernelGsBase);
    registers.star = fields.value(Field::Star);
    registers.lstar = fields.value(Field::Lstar);
    registers.cstar = fields.value(Field::Cstar);
    registers.sfmask = fields.value(Field::Sfmask);
    registers.sysenter_cs = fields.value(Field::SysenterCs);
    registers.sysenter_esp = fields.value(Field::SysenterEsp);
    registers.sysenter_eip = fields.value(Field::SysenterEip);
}

/// VMLOAD: loads FS, GS, TR and LDTR, KernelGsBase, and the MSRs of SYSCALL and SYSENTER from the VMCB at a guest-physical
/// address, by 34 reads (volume 3, 'VMLOAD'). Where its page of 4096 bytes is not all in the guest's memory, the answer is
/// the first address outside from its field of FS on; the registers stay as they are, and nothing is read.
#[tactic(auto, using(svm_model::proofs::WindowLemmas::windows, crate::proofs::MovedLemmas::moved))]
pub fn vmload<L: Ledger>(
    registers: &mut Registers,
    memory: &HostMemory,
    window: GuestWindow,
    address: u64,
    steps: &mut Steps<L>,
) -> Result<(), OutsideMemory>
    requires window { IsWithin window memory.now.bytes }
    ensures load { MatchOption (moved_at (guest_of window memory.now.bytes) address)
        ((result ≡ Ok tt) × (registers.new ≡ vmloaded (fields_in (guest_of window memory.now.bytes) address) registers.old))
        (λ outside. (result ≡ Err outside) × (registers.new ≡ registers.old)) }
    ensures steps { IfOk result (λ _. steps.new ≡ steps.old + 34) }
    ensures unread { IfErr result (λ _. steps.new ≡ steps.old) }
{
    match first_outside(window, address) {
        Some(outside) => Err(outside),
        None => {
            let fields = read_fields(memory, window, address, steps)?;
            load(registers, &fields);
            Ok(())
        }
    }
}

/// VMSAVE: stores FS, GS, TR and LDTR, KernelGsBase, and the MSRs of SYSCALL and SYSENTER in the VMCB at a guest-physical
/// address, and changes no other byte (volume 3, 'VMSAVE'). Where its page of 4096 bytes is not all in the guest's memory,
/// the answer is the first address outside from its field of FS on, and nothing is written.
#[tactic(auto, using(svm_model::proofs::WindowLemmas::windows))]
pub fn vmsave(
    registers: &Registers,
    memory: &mut HostMemory,
    window: GuestWindow,
    address: u64,
) -> Result<(), OutsideMemory>
    requires window { IsWithin window memory.old.bytes }
    ensures save { MatchOption (moved_at (guest_of window memory.old.bytes) address)
        ((result ≡ Ok tt) × (guest_of window memory.new.bytes ≡ with_fields address (vmsaved registers.now) (guest_of window memory.old.bytes)))
        (λ outside. (result ≡ Err outside) × (memory.new ≡ memory.old)) }
    ensures others { SameOutside window memory.old memory.new }
{
    match first_outside(window, address) {
        Some(outside) => Err(outside),
        None => {
            save_all(registers, memory, window, address);
            Ok(())
        }
    }
}
