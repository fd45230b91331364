// What a #VMEXIT stores, a line a field.
ghost use Rattle.std.specs.Prelude.{◌≡◌, ◌^◌, ◌*◌, ◌+◌, ◌-◌, ◌<◌, ◌≤◌};
ghost use Rattle.svm_model.specs.Memory.Bits.{bits_where as bits_given, replaced as replaced_bits};
ghost use Rattle.svm_model.specs.Svm.Vmcb.{Fields as FieldsRecord, value as value_in, with_values};
ghost use Rattle.svm_model.specs.Svm.VmcbLayout.{place_of};
ghost use Rattle.svm_model.specs.Svm.VmcbRules.{code_bits as bits_of_code, interrupt_information as information, type_of as type_of_cause};
ghost use Rattle.svm_model.specs.Svm.Vmexit.{live_word as live_bits, stored_controls, stored_exit, stored_flow, stored_live, stored_pat, stored_segment, stored_segments};

use svm_model::Field::{self, *};
use svm_model::{Cause, Exit, Inside, Registers, Segment, Trap};
use vmcb_layout::Fields;

/// The four fields of a segment or table register.
#[tactic(auto, unfolding(svm_model::specs::Svm::Vmcb::with_values))]
fn store_segment(
    selector: Field,
    attributes: Field,
    limit: Field,
    base: Field,
    segment: &Segment,
    fields: &mut Fields,
)
    requires selector { (place_of selector).width ≡ 2 }
    requires attributes { (place_of attributes).width ≡ 2 }
    requires limit { (place_of limit).width ≡ 4 }
    requires base { (place_of base).width ≡ 8 }
    ensures { fields.new ≡ with_values (stored_segment selector attributes limit base segment.now) fields.old }
{
    fields.set(selector, u64::from(segment.selector));
    fields.set(attributes, u64::from(segment.attributes));
    fields.set(limit, u64::from(segment.limit));
    fields.set(base, segment.base);
}

/// ES, CS, SS, DS, GDTR and IDTR.
#[rattlefmt::skip]
#[tactic(auto, unfolding(svm_model::specs::Svm::Vmexit::stored_segments, svm_model::specs::Svm::Vmcb::with_values, svm_model::specs::Svm::VmcbLayout::layout, svm_model::specs::Svm::VmcbLayout::number_of, svm_model::specs::Svm::VmcbLayout::place_at))]
pub(crate) fn store_segments(registers: &Registers, fields: &mut Fields)
    ensures { fields.new ≡ with_values (stored_segments registers.now) fields.old }
{
    store_segment(EsSelector, EsAttributes, EsLimit, EsBase, &registers.es, fields);
    store_segment(CsSelector, CsAttributes, CsLimit, CsBase, &registers.cs, fields);
    store_segment(SsSelector, SsAttributes, SsLimit, SsBase, &registers.ss, fields);
    store_segment(DsSelector, DsAttributes, DsLimit, DsBase, &registers.ds, fields);
    store_segment(GdtrSelector, GdtrAttributes, GdtrLimit, GdtrBase, &registers.gdtr, fields);
    store_segment(IdtrSelector, IdtrAttributes, IdtrLimit, IdtrBase, &registers.idtr, fields);
}

/// PAT, only where nested paging was in use.
#[tactic(auto, unfolding(svm_model::specs::Svm::Vmcb::with_values, svm_model::specs::Svm::VmcbLayout::layout, svm_model::specs::Svm::VmcbLayout::number_of, svm_model::specs::Svm::VmcbLayout::place_at))]
pub(crate) fn store_pat(nested: bool, registers: &Registers, fields: &mut Fields)
    ensures { fields.new ≡ with_values (stored_pat nested registers.now) fields.old }
{
    if nested {
        fields.set(GPat, registers.pat);
    }
}

/// These bits where a test holds, else none.
fn bits_where(test: bool, bits: u64) -> u64
    ensures { result ≡ bits_given test bits }
{
    if test { bits } else { 0 }
}

/// The bits of a mask from one word, all others from another.
fn replaced(mask: u64, old: u64, new: u64) -> u64
    ensures { result ≡ replaced_bits mask old new }
{
    (old & (u64::MAX - mask)) | (new & mask)
}

/// The type of an event in EXITINTINFO.
fn type_of(cause: Cause) -> u64
    ensures value { result ≡ type_of_cause cause }
    ensures few { result ≤ 4 }
{
    match cause {
        Cause::External => 0,
        Cause::Nmi => 2,
        Cause::Fault => 3,
        Cause::Software => 4,
    }
}

/// The error code in bits 63:32, and EV, bit 11, where there is one.
fn code_bits(code: Option<u32>) -> u64
    ensures value { result ≡ bits_of_code code }
    ensures few { result ≤ 2 ^ 32 * (2 ^ 32 - 1) + 2 ^ 11 }
{
    match code {
        None => 0,
        Some(code) => (1 << 32) * u64::from(code) + (1 << 11),
    }
}

/// The event that was in delivery, in the form of EVENTINJ; 0 where there was none.
#[tactic(auto, unfolding(svm_model::specs::Svm::VmcbRules::interrupt_information))]
fn interrupt_information(delivering: Option<Trap>) -> u64
    ensures { result ≡ information delivering }
{
    match delivering {
        None => 0,
        Some(trap) => {
            u64::from(trap.vector)
                + (1 << 8) * type_of(trap.cause)
                + (1 << 31)
                + code_bits(trap.code)
        }
    }
}

/// The exit, with the event that was in delivery. EVENTINJ is the word that was found, and loses its bit 31.
#[tactic(auto, unfolding(svm_model::specs::Svm::Vmexit::stored_exit, svm_model::specs::Svm::Vmcb::with_values, svm_model::specs::Svm::VmcbLayout::layout, svm_model::specs::Svm::VmcbLayout::number_of, svm_model::specs::Svm::VmcbLayout::place_at))]
pub(crate) fn store_exit(exit: &Exit, delivering: Option<Trap>, event: u64, fields: &mut Fields)
    ensures { (v : FieldsRecord) → value_in v Field.EventInj ≡ event → fields.new ≡ with_values (stored_exit exit.now delivering v) fields.old }
{
    fields.set(ExitCode, exit.code);
    fields.set(ExitInfo1, exit.info1);
    fields.set(ExitInfo2, exit.info2);
    fields.set(ExitIntInfo, interrupt_information(delivering));
    fields.set(NextRip, exit.next_rip);
    fields.set(EventInj, replaced(1 << 31, event, 0));
}

/// CPL, the control registers and the debug registers.
#[tactic(auto, unfolding(svm_model::specs::Svm::Vmcb::with_values, svm_model::specs::Svm::VmcbLayout::layout, svm_model::specs::Svm::VmcbLayout::number_of, svm_model::specs::Svm::VmcbLayout::place_at))]
pub(crate) fn store_controls(registers: &Registers, fields: &mut Fields)
    ensures { fields.new ≡ with_values (stored_controls registers.now) fields.old }
{
    fields.set(Cpl, u64::from(registers.cpl));
    fields.set(Efer, registers.efer);
    fields.set(Cr4, registers.cr4);
    fields.set(Cr3, registers.cr3);
    fields.set(Cr0, registers.cr0);
    fields.set(Dr7, registers.dr7);
    fields.set(Dr6, registers.dr6);
}

/// RFLAGS, RIP, RSP, RAX, CR2 and the interrupt shadow. SHADOW is the word that was found, and keeps its other bits.
#[tactic(auto, unfolding(svm_model::specs::Svm::Vmcb::with_values, svm_model::specs::Svm::VmcbLayout::layout, svm_model::specs::Svm::VmcbLayout::number_of, svm_model::specs::Svm::VmcbLayout::place_at))]
pub(crate) fn store_flow(registers: &Registers, shadow: u64, fields: &mut Fields)
    ensures { (v : FieldsRecord) → value_in v Field.Shadow ≡ shadow → fields.new ≡ with_values (stored_flow registers.now v) fields.old }
{
    fields.set(Rflags, registers.rflags);
    fields.set(Rip, registers.rip);
    fields.set(Rsp, registers.general[4]);
    fields.set(Rax, registers.general[0]);
    fields.set(Cr2, registers.cr2);
    fields.set(Shadow, replaced(1, shadow, bits_where(registers.shadow, 1)));
}

/// The live bits of the virtual-interrupt word: V_TPR, V_IRQ and V_GIF, bits 9:0.
fn live_word(inside: &Inside) -> u64
    ensures value { result ≡ live_bits inside.now }
    ensures few { result < 2 ^ 10 }
{
    u64::from(inside.v_tpr) + bits_where(inside.v_irq, 0x100) + bits_where(inside.v_gif, 0x200)
}

/// The live bits of the virtual-interrupt word, which is the word that was found, and keeps its other bits.
#[tactic(auto, unfolding(svm_model::specs::Svm::Vmcb::with_values, svm_model::specs::Svm::VmcbLayout::layout, svm_model::specs::Svm::VmcbLayout::number_of, svm_model::specs::Svm::VmcbLayout::place_at))]
pub(crate) fn store_live(inside: &Inside, word: u64, fields: &mut Fields)
    ensures { (v : FieldsRecord) → value_in v Field.VirtualInterrupt ≡ word → fields.new ≡ with_values (stored_live inside.now v) fields.old }
{
    fields.set(VirtualInterrupt, replaced(0x3ff, word, live_word(inside)));
}
