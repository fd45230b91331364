// RDMSR, WRMSR and RDTSC (volume 2, 'Model-Specific Registers (MSRs)'; volume 3, 'RDMSR', 'WRMSR', 'RDTSC').
ghost use Rattle.std.specs.Prelude.{◌≡◌, ◌==◌, if◌then◌else◌, IfOk, List, OnErr, ℕ, []};
ghost use Rattle.svm_model.specs.Instructions.ControlRows.{msr_named, reads_named, with_pair, writes_named};
ghost use Rattle.svm_model.specs.Instructions.Msrs.{apic_base, is_memory_type, is_pat, msr_of, msr_value, with_efer, with_msr};
ghost use Rattle.svm_model.specs.Instructions.Operands.{state};
ghost use Rattle.svm_model.specs.Instructions.SystemState.{Fits, at_next, systemic};
ghost use Rattle.row_system.specs.Moving.{MovesOn};
ghost use Rattle.row_system.specs.Named.{KeptUnlessDone, named, named_of, write_of};
ghost use Rattle.row_system.specs.declared.msrs.Written.TheVariants as written;

use crate::guards::is_page;
use crate::registers::{pair_of, step_over, write_pair};
use bitflags::Flags as _;
use register_file::{RCX, whole_register};
use svm_model::{End, Facts, Outside, Registers, Trap};
use vm_names::{EferBits, GENERAL_PROTECTION, is_canonical};

/// A model-specific register that is offered.
#[derive(Clone, Copy)]
enum Msr {
    Tsc,
    ApicBase,
    SysenterCs,
    SysenterEsp,
    SysenterEip,
    Pat,
    Efer,
    Star,
    Lstar,
    Cstar,
    Sfmask,
    FsBase,
    GsBase,
    KernelGsBase,
    VmCr,
    VmHsavePa,
}

/// What a write of a register comes to: it is done, it is #GP(0), or by it the guest leaves the modes that are offered.
#[derive(Clone, Copy)]
enum Written {
    Done,
    Refused,
    Leaves { rule: u8 },
}

/// The bits of EFER that are offered: SCE, LME, LMA, NXE and SVME.
const EFER_OFFERED: u64 = 0x1d01;

/// EFER.LMA, bit 10, which is always 1.
const LONG_MODE_ACTIVE: u64 = 1 << 10;

/// The page of the local APIC, enabled.
const APIC_BASE: u64 = 0xfee0_0800;

/// The bootstrap processor, bit 8 of the APIC base.
const BOOTSTRAP: u64 = 0x100;

/// The register of a number, or None where no such register is offered (volume 2, 'Cross-Listing of MSRs').
#[tactic(auto, unfolding(svm_model::specs::Instructions::Msrs::msr_of))]
fn msr_of(number: u64) -> Option<Msr>
    ensures { msr_of number ≡ named_of result }
{
    match number {
        0x0000_0010 => Some(Msr::Tsc),
        0x0000_001b => Some(Msr::ApicBase),
        0x0000_0174 => Some(Msr::SysenterCs),
        0x0000_0175 => Some(Msr::SysenterEsp),
        0x0000_0176 => Some(Msr::SysenterEip),
        0x0000_0277 => Some(Msr::Pat),
        0xc000_0080 => Some(Msr::Efer),
        0xc000_0081 => Some(Msr::Star),
        0xc000_0082 => Some(Msr::Lstar),
        0xc000_0083 => Some(Msr::Cstar),
        0xc000_0084 => Some(Msr::Sfmask),
        0xc000_0100 => Some(Msr::FsBase),
        0xc000_0101 => Some(Msr::GsBase),
        0xc000_0102 => Some(Msr::KernelGsBase),
        0xc001_0114 => Some(Msr::VmCr),
        0xc001_0117 => Some(Msr::VmHsavePa),
        _ => None,
    }
}

/// The register that ECX names.
fn msr_named(registers: &Registers) -> Option<Msr>
    ensures { msr_named registers.now ≡ named_of result }
{
    msr_of(whole_register(registers, RCX) % 0x1_0000_0000)
}

/// The APIC base of a vcpu. Vcpu 0 is the bootstrap processor.
fn apic_base(facts: &Facts) -> u64
    ensures { result ≡ apic_base facts.now }
{
    if facts.apic_id == 0 {
        APIC_BASE + BOOTSTRAP
    } else {
        APIC_BASE
    }
}

/// What a register reads as.
#[tactic(auto, unfolding(svm_model::specs::Instructions::Msrs::msr_value))]
fn msr_value(msr: Msr, facts: &Facts, registers: &Registers) -> u64
    ensures { result ≡ msr_value (named msr) facts.now registers.now }
{
    match msr {
        Msr::Tsc => facts.tsc,
        Msr::ApicBase => apic_base(facts),
        Msr::SysenterCs => registers.sysenter_cs,
        Msr::SysenterEsp => registers.sysenter_esp,
        Msr::SysenterEip => registers.sysenter_eip,
        Msr::Pat => registers.pat,
        Msr::Efer => registers.efer,
        Msr::Star => registers.star,
        Msr::Lstar => registers.lstar,
        Msr::Cstar => registers.cstar,
        Msr::Sfmask => registers.sfmask,
        Msr::FsBase => registers.fs.base,
        Msr::GsBase => registers.gs.base,
        Msr::KernelGsBase => registers.kernel_gs,
        Msr::VmCr => 0,
        Msr::VmHsavePa => registers.hsave,
    }
}

/// A memory type of PAT: 0, 1, 4, 5, 6 or 7.
fn is_memory_type(byte: u64) -> bool
    ensures { result ≡ is_memory_type byte }
{
    byte <= 1 || 4 <= byte && byte <= 7
}

/// Whether each byte is a memory type (volume 2, 'Page-Attribute Table Mechanism').
fn is_pat(value: u64) -> bool
    ensures { result ≡ is_pat value }
{
    is_memory_type(value % 0x100)
        && is_memory_type(value / 0x100 % 0x100)
        && is_memory_type(value / 0x1_0000 % 0x100)
        && is_memory_type(value / 0x100_0000 % 0x100)
        && is_memory_type(value / 0x1_0000_0000 % 0x100)
        && is_memory_type(value / 0x100_0000_0000 % 0x100)
        && is_memory_type(value / 0x1_0000_0000_0000 % 0x100)
        && is_memory_type(value / 0x100_0000_0000_0000 % 0x100)
}

/// Stores what a register takes.
fn store_where(test: bool, register: &mut u64, value: u64) -> Written
    ensures written { result ≡ (if test then written.Done else written.Refused) }
    ensures register { register.new ≡ (if test then value else register.old) }
{
    if test {
        *register = value;
        Written::Done
    } else {
        Written::Refused
    }
}

/// Writes EFER. LME is not to be cleared.
fn write_efer(value: u64, registers: &mut Registers) -> Written
    ensures written { with_efer value registers.old ≡ write_of result registers.new }
    ensures kept { KeptUnlessDone result registers.old registers.new }
{
    if value & !EFER_OFFERED != 0 {
        return Written::Refused;
    }
    if !EferBits(value).contains(EferBits::LONG_MODE_ENABLE) {
        return Written::Leaves { rule: 3 };
    }
    registers.efer = value | LONG_MODE_ACTIVE;
    Written::Done
}

/// Writes the APIC base, which is not to be moved.
fn write_apic_base(value: u64, facts: &Facts) -> Written
    ensures { result ≡ (if value == apic_base facts.now then written.Done else written.Leaves 7) }
{
    if value == apic_base(facts) {
        Written::Done
    } else {
        Written::Leaves { rule: 7 }
    }
}

/// Writes a register. The time-stamp counter is the event's number and an addend; VM_CR ignores what is written.
#[tactic(auto, unfolding(svm_model::specs::Instructions::Msrs::with_msr))]
#[rattlefmt::skip]
fn write_msr(msr: Msr, value: u64, registers: &mut Registers, facts: &Facts) -> Written
    ensures written { with_msr (named msr) value facts.now registers.old ≡ write_of result registers.new }
    ensures kept { KeptUnlessDone result registers.old registers.new }
{
    let addend = value.wrapping_sub(u64::from(facts.event));
    let canonical = is_canonical(value);
    match msr {
        Msr::Tsc => store_where(true, &mut registers.tsc_add, addend),
        Msr::ApicBase => write_apic_base(value, facts),
        Msr::SysenterCs => store_where(true, &mut registers.sysenter_cs, value),
        Msr::SysenterEsp => store_where(true, &mut registers.sysenter_esp, value % 0x1_0000_0000),
        Msr::SysenterEip => store_where(true, &mut registers.sysenter_eip, value % 0x1_0000_0000),
        Msr::Pat => store_where(is_pat(value), &mut registers.pat, value),
        Msr::Efer => write_efer(value, registers),
        Msr::Star => store_where(true, &mut registers.star, value),
        Msr::Lstar => store_where(canonical, &mut registers.lstar, value),
        Msr::Cstar => store_where(canonical, &mut registers.cstar, value),
        Msr::Sfmask => store_where(true, &mut registers.sfmask, value),
        Msr::FsBase => store_where(canonical, &mut registers.fs.base, value),
        Msr::GsBase => store_where(canonical, &mut registers.gs.base, value),
        Msr::KernelGsBase => store_where(canonical, &mut registers.kernel_gs, value),
        Msr::VmCr => Written::Done,
        Msr::VmHsavePa => store_where(is_page(value), &mut registers.hsave, value),
    }
}

/// RDMSR.
pub fn read_named(registers: &mut Registers, next_rip: u64, facts: &Facts) -> Result<Outside, Trap>
    ensures answer { (results : List ℕ) → reads_named (msr_named registers.old) next_rip facts.now (state registers.old results) ≡ systemic result registers.new results }
    ensures fits { IfOk result Fits }
    ensures kept { OnErr result (registers.new ≡ registers.old) }
    ensures moves_on { IfOk result (MovesOn next_rip registers.new) }
{
    match msr_named(registers) {
        None => Err(GENERAL_PROTECTION),
        Some(msr) => {
            let value = msr_value(msr, facts, registers);
            write_pair(registers, value);
            step_over(registers, next_rip);
            Ok(Outside::None)
        }
    }
}

/// WRMSR.
pub fn write_named(registers: &mut Registers, next_rip: u64, facts: &Facts) -> Result<Outside, Trap>
    ensures answer { (results : List ℕ) → writes_named (msr_named registers.old) next_rip facts.now (state registers.old results) ≡ systemic result registers.new results }
    ensures fits { IfOk result Fits }
    ensures kept { OnErr result (registers.new ≡ registers.old) }
    ensures moves_on { IfOk result (MovesOn next_rip registers.new) }
{
    let value = pair_of(registers);
    let Some(msr) = msr_named(registers) else {
        return Err(GENERAL_PROTECTION);
    };
    match write_msr(msr, value, registers, facts) {
        Written::Done => {
            step_over(registers, next_rip);
            Ok(Outside::None)
        }
        Written::Refused => Err(GENERAL_PROTECTION),
        Written::Leaves { rule } => Ok(Outside::Ends(End::Mode { rule })),
    }
}

/// RDTSC.
pub fn read_time(registers: &mut Registers, next_rip: u64, facts: &Facts)
    ensures { registers.new ≡ (at_next next_rip (with_pair facts.now.tsc (state registers.old []))).registers }
{
    write_pair(registers, facts.tsc);
    step_over(registers, next_rip);
}
