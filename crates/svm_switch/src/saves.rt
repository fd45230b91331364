// What VMSAVE stores, a line a field.
ghost use Rattle.std.specs.Prelude.{◌≡◌, ◌+◌, ◌^◌, ◌<◌, ◌≤◌, [], ◌∷◌};
ghost use Rattle.svm_model.specs.Memory.Bytes.{IsWithin};
ghost use Rattle.svm_model.specs.Svm.VmcbLayout.{place_of};
ghost use Rattle.svm_model.specs.Svm.Vmexit.{stored, stored_segment};
ghost use Rattle.svm_model.specs.Svm.VmloadVmsave.{saved_segments, saved_syscall, saved_sysenter, vmsaved};
ghost use Rattle.svm_switch.specs.Saved.{AreSaved, IsWide};

use host_memory::{GuestWindow, HostMemory};
use svm_model::Field::{self, *};
use svm_model::{Registers, Segment};
use vmcb_layout::put;

/// One field of a VMCB whose page is there.
#[tactic(auto, unfolding(svm_model::specs::Svm::Vmcb::with_fields), using(svm_model::proofs::WindowLemmas::windows))]
fn save(memory: &mut HostMemory, window: GuestWindow, address: u64, field: Field, value: u64)
    requires window { IsWithin window memory.old.bytes }
    requires page { address + 4096 ≤ window.size }
    requires place { (place_of field).offset + (place_of field).width ≤ 4096 }
    requires fits { value < 256 ^ (place_of field).width }
    ensures saved { AreSaved window address (stored field value ∷ []) memory.old memory.new }
    ensures window { IsWithin window memory.new.bytes }
{
    let _ = put(memory, window, address, field, value);
}

/// A field of eight bytes.
fn save_word(memory: &mut HostMemory, window: GuestWindow, address: u64, field: Field, value: u64)
    requires window { IsWithin window memory.old.bytes }
    requires page { address + 4096 ≤ window.size }
    requires field { IsWide field 8 }
    ensures saved { AreSaved window address (stored field value ∷ []) memory.old memory.new }
    ensures window { IsWithin window memory.new.bytes }
{
    save(memory, window, address, field, value);
}

/// The four fields of a segment or table register.
#[derive(Clone, Copy)]
struct Parts {
    selector: Field,
    attributes: Field,
    limit: Field,
    base: Field,
}

/// A segment or table register.
#[rattlefmt::skip]
fn save_segment(
    memory: &mut HostMemory,
    window: GuestWindow,
    address: u64,
    parts: Parts,
    segment: &Segment,
)
    requires window { IsWithin window memory.old.bytes }
    requires page { address + 4096 ≤ window.size }
    requires selector { IsWide parts.selector 2 }
    requires attributes { IsWide parts.attributes 2 }
    requires limit { IsWide parts.limit 4 }
    requires base { IsWide parts.base 8 }
    ensures saved { AreSaved window address (stored_segment parts.selector parts.attributes parts.limit parts.base segment.now) memory.old memory.new }
    ensures window { IsWithin window memory.new.bytes }
{
    save(memory, window, address, parts.selector, segment.selector as u64);
    save(memory, window, address, parts.attributes, segment.attributes as u64);
    save(memory, window, address, parts.limit, segment.limit as u64);
    save(memory, window, address, parts.base, segment.base);
}

/// KernelGsBase, and the MSRs of SYSCALL.
#[tactic(auto, unfolding(svm_model::specs::Svm::VmcbLayout::layout, svm_model::specs::Svm::VmcbLayout::number_of, svm_model::specs::Svm::VmcbLayout::place_at))]
fn save_syscall(registers: &Registers, memory: &mut HostMemory, window: GuestWindow, address: u64)
    requires window { IsWithin window memory.old.bytes }
    requires page { address + 4096 ≤ window.size }
    ensures saved { AreSaved window address (saved_syscall registers.now) memory.old memory.new }
    ensures window { IsWithin window memory.new.bytes }
{
    save_word(memory, window, address, KernelGsBase, registers.kernel_gs);
    save_word(memory, window, address, Star, registers.star);
    save_word(memory, window, address, Lstar, registers.lstar);
    save_word(memory, window, address, Cstar, registers.cstar);
    save_word(memory, window, address, Sfmask, registers.sfmask);
}

/// The MSRs of SYSENTER.
#[tactic(auto, unfolding(svm_model::specs::Svm::VmcbLayout::layout, svm_model::specs::Svm::VmcbLayout::number_of, svm_model::specs::Svm::VmcbLayout::place_at))]
fn save_sysenter(registers: &Registers, memory: &mut HostMemory, window: GuestWindow, address: u64)
    requires window { IsWithin window memory.old.bytes }
    requires page { address + 4096 ≤ window.size }
    ensures saved { AreSaved window address (saved_sysenter registers.now) memory.old memory.new }
    ensures window { IsWithin window memory.new.bytes }
{
    save_word(memory, window, address, SysenterCs, registers.sysenter_cs);
    save_word(memory, window, address, SysenterEsp, registers.sysenter_esp);
    save_word(memory, window, address, SysenterEip, registers.sysenter_eip);
}

/// FS, GS, TR and LDTR.
#[rattlefmt::skip]
#[tactic(auto, unfolding(svm_model::specs::Svm::VmcbLayout::layout, svm_model::specs::Svm::VmcbLayout::number_of, svm_model::specs::Svm::VmcbLayout::place_at))]
fn save_segments(registers: &Registers, memory: &mut HostMemory, window: GuestWindow, address: u64)
    requires window { IsWithin window memory.old.bytes }
    requires page { address + 4096 ≤ window.size }
    ensures saved { AreSaved window address (saved_segments registers.now) memory.old memory.new }
    ensures window { IsWithin window memory.new.bytes }
{
    let fs = Parts { selector: FsSelector, attributes: FsAttributes, limit: FsLimit, base: FsBase };
    let gs = Parts { selector: GsSelector, attributes: GsAttributes, limit: GsLimit, base: GsBase };
    let tr = Parts { selector: TrSelector, attributes: TrAttributes, limit: TrLimit, base: TrBase };
    let ldtr = Parts { selector: LdtrSelector, attributes: LdtrAttributes, limit: LdtrLimit, base: LdtrBase };
    save_segment(memory, window, address, fs, &registers.fs);
    save_segment(memory, window, address, gs, &registers.gs);
    save_segment(memory, window, address, tr, &registers.tr);
    save_segment(memory, window, address, ldtr, &registers.ldtr);
}

/// All that VMSAVE stores, where the page of the VMCB is there (volume 3, 'VMSAVE').
#[tactic(auto, unfolding(svm_model::specs::Svm::VmloadVmsave::vmsaved))]
pub(crate) fn save_all(
    registers: &Registers,
    memory: &mut HostMemory,
    window: GuestWindow,
    address: u64,
)
    requires window { IsWithin window memory.old.bytes }
    requires page { address + 4096 ≤ window.size }
    ensures { AreSaved window address (vmsaved registers.now) memory.old memory.new }
{
    save_syscall(registers, memory, window, address);
    save_sysenter(registers, memory, window, address);
    save_segments(registers, memory, window, address);
}
