// CLI, STI, PUSHFQ and POPFQ (volume 3, 'CLI', 'STI', 'PUSHF', 'POPF').
ghost use Rattle.std.specs.Prelude.{◌≡◌, List, ℕ};
ghost use Rattle.svm_model.specs.Instructions.Operands.{state};
ghost use Rattle.svm_model.specs.Instructions.SystemState.{Fits, asking, clears_interrupts, pops_flags, pushes_flags, sets_interrupts};
ghost use Rattle.svm_model.specs.Turn.Return.{popped_flags, popped_mask};
ghost use Rattle.row_system.specs.Moving.{IsAtNext, MovesOn};
ghost use Rattle.svm_model.specs.declared.system.Outside.TheVariants as outside;

use crate::guards::io_privilege;
use crate::registers::step_over;
use register_file::{RSP, whole_register, write_register};
use svm_model::{End, Outside, Registers, Width};

/// TF, bit 8.
const TRAP_FLAG: u64 = 1 << 8;

/// IF, bit 9.
const INTERRUPT_FLAG: u64 = 1 << 9;

/// IOPL, bits 13:12.
const IO_PRIVILEGE_LEVEL: u64 = 0x3000;

/// RF and VM, bits 16 and 17.
const RESUME_AND_VIRTUAL: u64 = 0x3_0000;

/// The bits that POPFQ may change: CF, PF, AF, ZF, SF, IF, DF, OF, IOPL, NT, AC and ID, at most, and TF.
const POPPED: u64 = 0x20_7ed5;

/// CLI.
pub fn clear_interrupts(registers: &mut Registers, next_rip: u64) -> Outside
    ensures answer { (results : List ℕ) → clears_interrupts next_rip (state registers.old results) ≡ asking result (state registers.new results) }
    ensures fits { Fits result }
    ensures moves_on { MovesOn next_rip registers.new result }
{
    registers.rflags &= !INTERRUPT_FLAG;
    step_over(registers, next_rip);
    Outside::None
}

/// STI. It casts an interrupt shadow where interrupts were off.
pub fn set_interrupts(registers: &mut Registers, next_rip: u64) -> Outside
    ensures answer { (results : List ℕ) → sets_interrupts next_rip (state registers.old results) ≡ asking result (state registers.new results) }
    ensures fits { Fits result }
    ensures moves_on { MovesOn next_rip registers.new result }
{
    let were_on = registers.rflags & INTERRUPT_FLAG == INTERRUPT_FLAG;
    registers.rflags |= INTERRUPT_FLAG;
    step_over(registers, next_rip);
    if were_on {
        Outside::None
    } else {
        Outside::Shadow
    }
}

/// PUSHFQ. The row's access writes the flags, with RF and VM clear.
pub fn push_flags(registers: &mut Registers, next_rip: u64, results: &mut [u64; 8])
    ensures answer { pushes_flags next_rip (state registers.old results.old) ≡ asking outside.None (state registers.new results.new) }
    ensures moves_on { IsAtNext next_rip registers.new }
{
    results[0] = registers.rflags & !RESUME_AND_VIRTUAL;
    let top = whole_register(registers, RSP).wrapping_sub(8);
    write_register(registers, Width::W64, RSP, false, top);
    step_over(registers, next_rip);
}

/// The bits of RFLAGS that POPFQ changes: IOPL at CPL 0 alone, and IF where CPL is at most IOPL.
fn popped_mask(registers: &Registers) -> u64
    ensures { result ≡ popped_mask registers.now }
{
    let level = if registers.cpl == 0 {
        0
    } else {
        IO_PRIVILEGE_LEVEL
    };
    let interrupts = if io_privilege(registers) < u64::from(registers.cpl) {
        INTERRUPT_FLAG
    } else {
        0
    };
    POPPED & !level & !interrupts
}

/// RFLAGS after a value is popped into it.
#[tactic(auto, unfolding(svm_model::specs::Turn::Return::popped_flags))]
fn popped_flags(registers: &Registers, value: u64) -> u64
    ensures { result ≡ popped_flags registers.now value }
{
    let mask = popped_mask(registers);
    registers.rflags & !mask | value & mask
}

/// POPFQ. Single-step is not offered.
pub fn pop_flags(registers: &mut Registers, next_rip: u64, values: &[u64; 8]) -> Outside
    ensures answer { (results : List ℕ) → pops_flags next_rip values.now (state registers.old results) ≡ asking result (state registers.new results) }
    ensures fits { Fits result }
    ensures moves_on { MovesOn next_rip registers.new result }
{
    let value = values[0];
    if value & TRAP_FLAG == TRAP_FLAG {
        return Outside::Ends(End::Mode { rule: 6 });
    }
    let top = whole_register(registers, RSP).wrapping_add(8);
    registers.rflags = popped_flags(registers, value);
    write_register(registers, Width::W64, RSP, false, top);
    step_over(registers, next_rip);
    Outside::None
}
