// What a #VMEXIT stores and brings back.
ghost use Rattle.std.specs.Prelude.{◌≡◌, if◌then◌else◌};
ghost use Rattle.svm_model.specs.Svm.Vmcb.{has_nested_paging as nested_paging, with_values};
ghost use Rattle.svm_model.specs.Svm.Vmexit.{brought_back, host_registers, stored_on_exit, stored_state};

use crate::entering::has_nested_paging;
use crate::stores::{store_controls, store_exit, store_flow, store_pat, store_segments};
use svm_model::{Exit, Field, Kept, Registers, Trap};
use vmcb_layout::Fields;

/// PAT comes back only where nested paging was in use.
fn pat_back(nested: bool, kept: u64, pat: u64) -> u64
    ensures { result ≡ (if nested then kept else pat) }
{
    if nested { kept } else { pat }
}

/// Brings back what was kept.
#[tactic(auto, unfolding(svm_model::specs::Svm::Vmexit::brought_back))]
pub(crate) fn bring_back(nested: bool, kept: &Registers, registers: &mut Registers)
    ensures { registers.new ≡ brought_back nested kept.now registers.old }
{
    registers.general[4] = kept.general[4];
    registers.general[0] = kept.general[0];
    registers.rip = kept.rip;
    registers.rflags = kept.rflags;
    registers.cr0 = kept.cr0;
    registers.cr3 = kept.cr3;
    registers.cr4 = kept.cr4;
    registers.efer = kept.efer;
    registers.es = kept.es;
    registers.cs = kept.cs;
    registers.ss = kept.ss;
    registers.ds = kept.ds;
    registers.gdtr = kept.gdtr;
    registers.idtr = kept.idtr;
    registers.pat = pat_back(nested, kept.pat, registers.pat);
    reset(registers);
}

/// What a processor is behind each exit: DR7 is reset, CPL is 0, and there is no interrupt shadow.
pub(crate) fn reset(registers: &mut Registers)
    ensures { registers.new ≡ host_registers registers.old }
{
    registers.dr7 = 0x400;
    registers.cpl = 0;
    registers.shadow = false;
}

/// Stores the guest's state in the fields of its VMCB: all but the exit and the virtual-interrupt word.
#[tactic(auto, unfolding(svm_model::specs::Svm::Vmexit::stored_state))]
pub(crate) fn store_state(nested: bool, registers: &Registers, fields: &mut Fields)
    ensures { fields.new ≡ with_values (stored_state nested registers.now fields.old) fields.old }
{
    let shadow = fields.value(Field::Shadow);
    store_controls(registers, fields);
    store_flow(registers, shadow, fields);
    store_segments(registers, fields);
    store_pat(nested, registers, fields);
}

/// Stores the guest's state in the fields of its VMCB, with the exit and the event that was in delivery, and brings back
/// what VMRUN kept (volume 2, '#VMEXIT'). The virtual-interrupt word stays as it is: its live bits are the caller's to put
/// there, before or behind this call.
#[tactic(auto, unfolding(svm_model::specs::Svm::Vmexit::stored_on_exit))]
pub fn leave(
    registers: &mut Registers,
    kept: &Kept,
    exit: &Exit,
    delivering: Option<Trap>,
    fields: &mut Fields,
)
    ensures registers { registers.new ≡ brought_back (nested_paging fields.old) kept.now.registers registers.old }
    ensures fields { fields.new ≡ with_values (stored_on_exit registers.old exit.now delivering fields.old) fields.old }
{
    let nested = has_nested_paging(fields);
    let event = fields.value(Field::EventInj);
    store_state(nested, registers, fields);
    store_exit(exit, delivering, event, fields);
    bring_back(nested, &kept.registers, registers);
}
