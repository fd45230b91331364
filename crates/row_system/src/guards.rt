// The faults that come before a row's intercept (volume 2, 'Instruction Intercepts'; volume 3, 'System Instruction
// Reference').
ghost use Rattle.std.specs.Prelude.{◌≡◌, ◌&&◌, nat_lt};
ghost use Rattle.svm_model.specs.Instructions.Guards.{guard_of, has_svm, is_page, is_refused_control, is_refused_cr0, is_refused_cr4, is_refused_debug, or_else, refusal, refusal_by, refused_where, special_operand, supervisor_refusal, svm_refusal, writes_special};
ghost use Rattle.svm_model.specs.Memory.Bits.{bit};
ghost use Rattle.svm_model.specs.Memory.RegisterFile.{io_privilege};

use crate::registers::RAX;
use bitflags::Flags as _;
use register_file::whole_register;
use svm_model::{Before, Form, Op, Operand, Registers, Row, Trap};
use vm_names::{Cr0Bits, Cr4Bits, EferBits, GENERAL_PROTECTION, INVALID_OPCODE};

/// The bits of CR4 that are offered: TSD, PSE, PAE, PGE, OSFXSR and OSXMMEXCPT.
const CR4_OFFERED: u64 = 0x6b4;

/// The first physical address that is not offered.
const PHYSICAL_END: u64 = 1 << 40;

/// Bits 63:32, which are reserved in CR0, DR6 and DR7.
const UPPER_HALF: u64 = 0xffff_ffff_0000_0000;

/// What is looked at before a row's intercept.
#[tactic(auto, unfolding(svm_model::specs::Instructions::Guards::guard_of))]
fn before(op: Op) -> Before
    ensures { result ≡ (guard_of op).before }
{
    match op {
        Op::Hlt | Op::Rdmsr | Op::Wrmsr | Op::Lgdt | Op::Lidt | Op::Invlpg | Op::Swapgs => {
            Before::Supervisor
        }
        Op::Cli | Op::Sti | Op::In | Op::Out => Before::PortLevel,
        Op::MovCr => Before::ControlValue,
        Op::MovDr => Before::DebugValue,
        Op::Rdtsc => Before::TimeStamp,
        Op::Vmmcall => Before::Svm,
        Op::Stgi | Op::Clgi | Op::Invlpga => Before::SvmSupervisor,
        Op::Vmrun | Op::Vmload | Op::Vmsave => Before::SvmPage,
        _ => Before::Nothing,
    }
}

/// Whether the form of MOV CR or MOV DR writes the register.
#[tactic(auto, unfolding(svm_model::specs::Instructions::Guards::writes_special))]
pub fn writes_special(form: Form) -> bool
    ensures { result ≡ writes_special form }
{
    matches!(form, Form::MovCr0F22 | Form::MovDr0F23)
}

/// The general register of MOV CR and MOV DR.
pub fn special_operand(row: &Row, registers: &Registers) -> u64
    ensures { result ≡ special_operand row.now registers.now }
{
    match row.operand {
        Operand::Register { index, .. } => whole_register(registers, index),
        Operand::Memory { .. } | Operand::None => 0,
    }
}

/// A value that CR0 refuses: with a bit above 31, PG without PE, or NW without CD.
fn is_refused_cr0(value: u64) -> bool
    ensures { result ≡ is_refused_cr0 value }
{
    let cr0 = Cr0Bits(value);
    value & UPPER_HALF != 0
        || cr0.contains(Cr0Bits::PAGING) && !cr0.contains(Cr0Bits::PROTECTION_ENABLE)
        || cr0.contains(Cr0Bits::NOT_WRITE_THROUGH) && !cr0.contains(Cr0Bits::CACHE_DISABLE)
}

/// A value that CR4 refuses: with a bit that is not offered.
fn is_refused_cr4(value: u64) -> bool
    ensures { result ≡ is_refused_cr4 value }
{
    value & !CR4_OFFERED != 0
}

/// Whether a control register refuses the value. CR3 holds a physical address, and CR8 a priority of at most 15.
fn is_refused_control(register: u8, value: u64) -> bool
    ensures { result ≡ is_refused_control register value }
{
    match register {
        0 => is_refused_cr0(value),
        3 => value >= PHYSICAL_END,
        4 => is_refused_cr4(value),
        _ => register == 8 && value > 15,
    }
}

/// A value that DR6 and DR7 refuse: with a bit above 31.
fn is_refused_debug(value: u64) -> bool
    ensures { result ≡ is_refused_debug value }
{
    value > 0xffff_ffff
}

fn refused_where(test: bool, trap: Trap) -> Option<Trap>
    ensures { result ≡ refused_where test trap }
{
    if test { Some(trap) } else { None }
}

/// The first of two refusals.
fn or_else(first: Option<Trap>, second: Option<Trap>) -> Option<Trap>
    ensures { result ≡ or_else first second }
{
    match first {
        Some(trap) => Some(trap),
        None => second,
    }
}

fn supervisor_refusal(registers: &Registers) -> Option<Trap>
    ensures { result ≡ supervisor_refusal registers.now }
{
    refused_where(registers.cpl != 0, GENERAL_PROTECTION)
}

/// EFER.SVME, bit 12: the instructions of SVM are there (volume 2, 'Extended Feature Enable Register').
fn has_svm(registers: &Registers) -> bool
    ensures { result ≡ has_svm registers.now }
{
    EferBits(registers.efer).contains(EferBits::SVM_ENABLE)
}

fn svm_refusal(registers: &Registers) -> Option<Trap>
    ensures { result ≡ svm_refusal registers.now }
{
    refused_where(!has_svm(registers), INVALID_OPCODE)
}

/// Whether the address is that of a page of 4 KiB below 2^40.
pub fn is_page(address: u64) -> bool
    ensures { result ≡ is_page address }
{
    address & 0xfff == 0 && address < PHYSICAL_END
}

/// The I/O privilege level, bits 13:12 of RFLAGS.
pub fn io_privilege(registers: &Registers) -> u64
    ensures { result ≡ io_privilege registers.now }
{
    registers.rflags / 0x1000 % 4
}

/// CR4.TSD above CPL 0.
fn refuses_time(registers: &Registers) -> bool
    ensures { result ≡ (bit 2 registers.now.cr4 && nat_lt 0 registers.now.cpl) }
{
    Cr4Bits(registers.cr4).contains(Cr4Bits::TIME_STAMP_DISABLE) && registers.cpl > 0
}

/// Whether a row writes to a control register what that refuses.
fn writes_refused_control(row: &Row, registers: &Registers) -> bool
    ensures { result ≡ (writes_special row.now.form && is_refused_control row.now.register (special_operand row.now registers.now)) }
{
    writes_special(row.form) && is_refused_control(row.register, special_operand(row, registers))
}

/// Whether a row writes to a debug register what that refuses.
fn writes_refused_debug(row: &Row, registers: &Registers) -> bool
    ensures { result ≡ (writes_special row.now.form && is_refused_debug (special_operand row.now registers.now)) }
{
    writes_special(row.form) && is_refused_debug(special_operand(row, registers))
}

/// The fault that this kind of guard gives.
#[tactic(auto, unfolding(svm_model::specs::Instructions::Guards::refusal_by))]
fn refusal_by(before: Before, row: &Row, registers: &Registers) -> Option<Trap>
    ensures { result ≡ refusal_by before row.now registers.now }
{
    let supervisor = supervisor_refusal(registers);
    let svm = svm_refusal(registers);
    match before {
        Before::Nothing => None,
        Before::Supervisor => supervisor,
        Before::PortLevel => {
            let below = io_privilege(registers) < u64::from(registers.cpl);
            refused_where(below, GENERAL_PROTECTION)
        }
        Before::TimeStamp => refused_where(refuses_time(registers), GENERAL_PROTECTION),
        Before::ControlValue => {
            let refused = writes_refused_control(row, registers);
            or_else(supervisor, refused_where(refused, GENERAL_PROTECTION))
        }
        Before::DebugValue => {
            let refused = writes_refused_debug(row, registers);
            or_else(supervisor, refused_where(refused, GENERAL_PROTECTION))
        }
        Before::Svm => svm,
        Before::SvmSupervisor => or_else(svm, supervisor),
        Before::SvmPage => {
            let page = is_page(whole_register(registers, RAX));
            let refused = refused_where(!page, GENERAL_PROTECTION);
            or_else(svm, or_else(supervisor, refused))
        }
    }
}

/// The fault that comes before a row's intercept.
///
/// #GP(0) where a row for supervisors stands at another CPL than 0, where CPL is above IOPL at CLI, STI, IN and OUT,
/// where CR4.TSD hides the time-stamp counter, and where a control or debug register refuses what is written to it; #UD
/// where a row of SVM stands and EFER.SVME is 0 (volume 2, 'Instruction Intercepts'). None for rows of users.
pub fn refusal(row: &Row, registers: &Registers) -> Option<Trap>
    ensures { result ≡ refusal row.now registers.now }
{
    refusal_by(before(row.op), row, registers)
}
