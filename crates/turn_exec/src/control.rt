// What a turn is under.
ghost use Rattle.std.specs.Option.{option_copied};
ghost use Rattle.std.specs.Prelude.{◌≡◌, ℕ, Bool, Option, None};
ghost use Rattle.svm_model.specs.Svm.Vmcb.{field_bit, v_intr_prio as priority_of, v_intr_vector as vector_of};
ghost use Rattle.svm_model.specs.Turn.Control.{asid_of, asks, facts_under, host_of, interrupt_flag as flag_test, is_virtual_ready, live_gif, live_irq, live_tpr, masks_interrupts, offers_apic, owns_gif, physical_flag, turn_by};
ghost use Rattle.svm_model.specs.Turn.Faults.{exit_under};
ghost use Rattle.svm_model.specs.Turn.Work.{virtual_vector};
ghost use Rattle.svm_model.specs.declared.register_file.Registers.{Registers as RegistersRecord};
ghost use Rattle.turn_exec.specs.Takes.{takes};

use exit_rules::by_trap;
use std::marker::Model;
use svm_model::{Exit, Facts, Field, Frame, Inside, Registers, Trap, Turn, Vcpu};
use vmcb_layout::Fields;

/// What a turn in L2 is under: the fields of the VMCB in use, and the page of the local APIC where the guest is offered one
/// there. A turn in L1 is under none (volume 2, 'Secure Virtual Machine').
#[derive(Drop)]
pub struct Control {
    pub fields: Fields,
    pub bar: Option<Frame>,
}

impl Model for Control {
    ghost use Rattle.svm_model.specs.Turn.Control.{Control as ControlRecord};

    ghost Value = { ControlRecord };

    ghost view = { λ c. record { fields = c.fields; bar = c.bar } };
}

/// Whether a bit of a field is set; none is in L1.
pub fn asks(control: Option<&Control>, field: Field, number: u16) -> bool
    ensures { result ≡ asks (field_bit field number) (option_copied control.entry) }
{
    match control {
        None => false,
        Some(control) => control.fields.has_bit(field, number),
    }
}

/// The exit of an exception.
pub fn trap_exit(control: Option<&Control>, trap: &Trap, next_rip: u64) -> Option<Exit>
    ensures { result ≡ exit_under (option_copied control.entry) trap.now next_rip }
{
    match control {
        None => None,
        Some(control) => by_trap(&control.fields, trap, next_rip),
    }
}

/// Whether the guest's page of the local APIC is there.
#[inline(always)]
pub fn offers_apic(control: Option<&Control>) -> bool
    ensures { result ≡ offers_apic (option_copied control.entry) }
{
    match control {
        None => true,
        Some(control) => control.bar.is_some(),
    }
}

/// V_INTR_MASKING: CR8 and virtual interrupts go by V_TPR, and physical interrupts by the IF of the host.
pub fn masks_interrupts(control: Option<&Control>) -> bool
    ensures { result ≡ masks_interrupts (option_copied control.entry) }
{
    asks(control, Field::VirtualInterrupt, 24)
}

/// Whether STGI and CLGI change V_GIF in the place of GIF (volume 2, 'Virtual GIF').
pub fn owns_gif(control: Option<&Control>) -> bool
    ensures { result ≡ owns_gif (option_copied control.entry) }
{
    asks(control, Field::VirtualInterrupt, 25)
}

/// The address-space identifier, 0 in L1.
#[tactic(auto, unfolding(svm_model::specs::Svm::VmcbLayout::layout, svm_model::specs::Svm::VmcbLayout::number_of, svm_model::specs::Svm::VmcbLayout::place_at))]
pub fn asid(control: Option<&Control>) -> u32
    ensures { result ≡ asid_of (option_copied control.entry) }
{
    match control {
        None => 0,
        Some(control) => control.fields.value(Field::Asid) as u32,
    }
}

/// V_TPR of a vcpu in a VMCB.
fn live_tpr(inside: &Option<Inside>) -> u8
    ensures { result ≡ live_tpr inside.now }
{
    match inside {
        None => 0,
        Some(inside) => inside.v_tpr,
    }
}

/// What is known under it: TSC_OFFSET is added to the time-stamp counter, and under V_INTR_MASKING the task priority is V_TPR
/// (volume 2, 'TSC Offset', 'Virtual TPR').
pub fn facts(control: Option<&Control>, vcpu: &Vcpu, facts: &Facts) -> Facts
    ensures { result ≡ facts_under (option_copied control.entry) vcpu.now facts.now }
{
    let Some(under) = control else {
        return *facts;
    };
    let tpr = if masks_interrupts(control) {
        live_tpr(&vcpu.inside) % 16 * 16
    } else {
        facts.tpr
    };
    Facts {
        tsc: facts.tsc.wrapping_add(under.fields.value(Field::TscOffset)),
        tpr,
        ..*facts
    }
}

/// RFLAGS.IF.
fn interrupt_flag(registers: &Registers) -> bool
    ensures { result ≡ flag_test registers.now }
{
    registers.rflags & 0x200 == 0x200
}

/// The IF of the host: of the registers that VMRUN kept, where the vcpu is in a VMCB.
fn host_flag(vcpu: &Vcpu) -> bool
    ensures { result ≡ flag_test (host_of vcpu.now vcpu.now.inside) }
{
    match &vcpu.inside {
        None => interrupt_flag(&vcpu.registers),
        Some(inside) => interrupt_flag(&inside.kept.registers),
    }
}

/// The flag that physical interrupts go by.
#[inline]
fn physical_flag(control: Option<&Control>, vcpu: &Vcpu) -> bool
    ensures { result ≡ physical_flag (option_copied control.entry) vcpu.now }
{
    if masks_interrupts(control) {
        host_flag(vcpu)
    } else {
        interrupt_flag(&vcpu.registers)
    }
}

/// Whether a vcpu takes the interrupts of its APIC now: GIF and the flag that they go by are set, and no interrupt shadow holds
/// them off (volume 2, 'Global Interrupt Flag, STGI and CLGI Instructions'; volume 3, 'STI').
#[inline]
pub fn takes_interrupts(control: Option<&Control>, vcpu: &Vcpu) -> bool
    ensures { result ≡ takes (option_copied control.entry) vcpu.now }
{
    vcpu.gif && !vcpu.registers.shadow && physical_flag(control, vcpu)
}

/// Whether V_IRQ is set, as the vcpu has it.
fn live_irq(inside: &Option<Inside>) -> bool
    ensures { result ≡ live_irq inside.now }
{
    match inside {
        None => false,
        Some(inside) => inside.v_irq,
    }
}

/// Whether V_GIF is set, as the vcpu has it.
fn live_gif(inside: &Option<Inside>) -> bool
    ensures { result ≡ live_gif inside.now }
{
    match inside {
        None => false,
        Some(inside) => inside.v_gif,
    }
}

/// V_INTR_PRIO, bits 19:16 of the virtual-interrupt word.
fn virtual_priority(fields: &Fields) -> u8
    ensures { result ≡ priority_of fields.now }
{
    ((fields.value(Field::VirtualInterrupt) >> 16) % 16) as u8
}

/// Whether a virtual interrupt is ready: V_IRQ and IF are set, V_GIF where it is enabled, and its priority is above V_TPR
/// unless that is ignored (volume 2, 'Virtual Interrupts').
fn is_virtual_ready(control: Option<&Control>, vcpu: &Vcpu) -> bool
    ensures { result ≡ is_virtual_ready (option_copied control.entry) vcpu.now }
{
    let Some(control) = control else {
        return false;
    };
    let fields = &control.fields;
    let word = Field::VirtualInterrupt;
    live_irq(&vcpu.inside)
        && (!fields.has_bit(word, 25) || live_gif(&vcpu.inside))
        && (fields.has_bit(word, 20) || live_tpr(&vcpu.inside) % 16 < virtual_priority(fields))
        && interrupt_flag(&vcpu.registers)
}

/// V_INTR_VECTOR, the vector of the virtual interrupt; 0 in L1.
pub fn virtual_vector(control: Option<&Control>) -> u8
    ensures { result ≡ virtual_vector (option_copied control.entry) }
{
    match control {
        None => 0,
        Some(control) => ((control.fields.value(Field::VirtualInterrupt) >> 32) % 0x100) as u8,
    }
}

/// What the work of a turn is chosen by, where its APIC gives this vector.
#[inline]
pub fn turn_by(control: Option<&Control>, vcpu: &Vcpu, interrupt: Option<u8>) -> Turn
    ensures { result ≡ turn_by (option_copied control.entry) vcpu.now interrupt }
{
    Turn {
        injection: vcpu.held.is_some(),
        nmi: vcpu.nmi,
        nmi_blocked: vcpu.nmi_blocked,
        gif: vcpu.gif,
        interrupt,
        interrupt_flag: physical_flag(control, vcpu),
        virtual_ready: is_virtual_ready(control, vcpu),
        shadow: vcpu.registers.shadow,
        halted: vcpu.halted,
    }
}
