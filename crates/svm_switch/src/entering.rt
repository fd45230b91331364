// What VMRUN keeps and loads.
ghost use Rattle.std.specs.Prelude.{◌≡◌, if◌then◌else◌};
ghost use Rattle.svm_model.specs.Svm.Vmcb.{has_nested_paging as nested_paging, value as value_in};
ghost use Rattle.svm_model.specs.Svm.Vmrun.{kept_of, loaded as loaded_registers};

use svm_model::{Field, Kept, Registers};
use vmcb_layout::Fields;

/// Whether NP_ENABLE is set.
pub(crate) fn has_nested_paging(fields: &Fields) -> bool
    ensures { result ≡ nested_paging fields.now }
{
    fields.has_bit(Field::NpEnable, 0)
}

/// PAT is loaded only with nested paging.
fn loaded_pat(fields: &Fields, pat: u64) -> u64
    ensures { result ≡ (if nested_paging fields.now then value_in fields.now Field.GPat else pat) }
{
    if has_nested_paging(fields) {
        fields.value(Field::GPat)
    } else {
        pat
    }
}

/// Loads the guest's state from the fields of its VMCB, and answers what is kept of its caller: the registers, with RIP at
/// the next instruction, and the address of the VMCB (volume 2, 'VMRUN Instruction'). FS, GS, TR, LDTR and what else
/// VMLOAD moves stay as they are.
#[tactic(auto, unfolding(svm_model::specs::Svm::Vmrun::loaded, svm_model::specs::Svm::VmcbLayout::layout, svm_model::specs::Svm::VmcbLayout::number_of, svm_model::specs::Svm::VmcbLayout::place_at), using(vmcb_layout::proofs::RegisterParts::registers))]
pub fn enter(registers: &mut Registers, fields: &Fields, vmcb: u64, next_rip: u64) -> Kept
    ensures kept { result ≡ kept_of registers.old vmcb next_rip }
    ensures loaded { registers.new ≡ loaded_registers fields.now registers.old }
{
    let mut kept = *registers;
    kept.rip = next_rip;
    registers.general[4] = fields.value(Field::Rsp);
    registers.general[0] = fields.value(Field::Rax);
    registers.rip = fields.value(Field::Rip);
    registers.rflags = fields.value(Field::Rflags);
    registers.cr0 = fields.value(Field::Cr0);
    registers.cr2 = fields.value(Field::Cr2);
    registers.cr3 = fields.value(Field::Cr3);
    registers.cr4 = fields.value(Field::Cr4);
    registers.efer = fields.value(Field::Efer);
    registers.dr6 = fields.value(Field::Dr6);
    registers.dr7 = fields.value(Field::Dr7);
    registers.es = fields.segment(Field::EsSelector);
    registers.cs = fields.segment(Field::CsSelector);
    registers.ss = fields.segment(Field::SsSelector);
    registers.ds = fields.segment(Field::DsSelector);
    registers.gdtr = fields.segment(Field::GdtrSelector);
    registers.idtr = fields.segment(Field::IdtrSelector);
    registers.cpl = fields.value(Field::Cpl) as u8;
    registers.pat = loaded_pat(fields, registers.pat);
    registers.shadow = fields.has_bit(Field::Shadow, 0);
    Kept {
        registers: kept,
        vmcb,
    }
}
