// Exits of a guest whose VMCB is in memory.
ghost use Rattle.std.specs.Prelude.{◌≡◌, ◌+◌, ◌≤◌, None, length};
ghost use Rattle.svm_model.specs.Memory.Bytes.{IsWithin, SameOutside, guest_of};
ghost use Rattle.svm_model.specs.Svm.Intercepts.{invalid_exit};
ghost use Rattle.svm_model.specs.Svm.Vmcb.{fields_in, values_of, with_fields, with_values};
ghost use Rattle.svm_model.specs.Svm.Vmexit.{brought_back, host_registers, stored_exit};
ghost use Rattle.svm_switch.specs.Left.{left_fields, stored_in_all};
ghost use Rattle.svm_switch.specs.declared.in_memory.TheConstants.{EXIT_FIELDS};

use crate::leaving::{bring_back, reset, store_state};
use crate::stores::{store_exit, store_live};
use host_memory::{GuestWindow, HostMemory, Steps};
use std::sync::ledger::Ledger;
use svm_model::Field::{self, *};
use svm_model::{Exit, Inside, Kept, Registers, Trap};
use vmcb_layout::{Fields, put_fields, read_inside};

// The fields that a #VMEXIT stores: the guest's state with G_PAT or without, the virtual-interrupt word, and the exit.
macro_rules! left_fields {
    ($($pat:ident),*) => {
        [
            Cpl, Efer, Cr4, Cr3, Cr0, Dr7, Dr6, Rflags, Rip, Rsp, Rax, Cr2, Shadow,
            EsSelector, EsAttributes, EsLimit, EsBase, CsSelector, CsAttributes, CsLimit, CsBase,
            SsSelector, SsAttributes, SsLimit, SsBase, DsSelector, DsAttributes, DsLimit, DsBase,
            GdtrSelector, GdtrAttributes, GdtrLimit, GdtrBase, IdtrSelector, IdtrAttributes, IdtrLimit, IdtrBase,
            $($pat,)*
            VirtualInterrupt,
            ExitCode, ExitInfo1, ExitInfo2, ExitIntInfo, NextRip, EventInj,
        ]
    };
}

const LEFT_FIELDS: [Field; 44] = left_fields!();

const LEFT_NESTED_FIELDS: [Field; 45] = left_fields!(GPat);

/// The fields that tell an exit: all that the exit of an illegal VMRUN stores.
pub const EXIT_FIELDS: [Field; 6] = [
    ExitCode,
    ExitInfo1,
    ExitInfo2,
    ExitIntInfo,
    NextRip,
    EventInj,
];

/// How a guest is left: whether nested paging was in use, the exit, and the event that was in delivery.
#[derive(Clone, Copy)]
pub struct Leaving {
    pub nested: bool,
    pub exit: Exit,
    pub delivering: Option<Trap>,
}

/// All that a #VMEXIT stores, in the fields as they were found.
fn store_all(registers: &Registers, inside: &Inside, leaving: &Leaving, fields: &mut Fields)
    ensures { fields.new ≡ with_values (stored_in_all registers.now inside.now leaving.now fields.old) fields.old }
{
    let word = fields.value(VirtualInterrupt);
    let event = fields.value(EventInj);
    store_state(leaving.nested, registers, fields);
    store_live(inside, word, fields);
    store_exit(&leaving.exit, leaving.delivering, event, fields);
}

/// The fields that a #VMEXIT stores; G_PAT is one only where nested paging was in use (volume 2, '#VMEXIT').
pub fn left_fields(nested: bool) -> &'static [Field]
    ensures { result.now ≡ left_fields nested }
{
    if nested {
        &LEFT_NESTED_FIELDS
    } else {
        &LEFT_FIELDS
    }
}

/// The values with which a #VMEXIT leaves the VMCB in use, whose page of 4096 bytes is in memory: those that are found there, by
/// 34 reads, but in the fields that it stores (volume 2, '#VMEXIT').
#[tactic(auto, using(svm_model::proofs::WindowLemmas::windows))]
pub fn values_to_leave<L: Ledger>(
    registers: &Registers,
    inside: &Inside,
    leaving: &Leaving,
    memory: &HostMemory,
    window: GuestWindow,
    steps: &mut Steps<L>,
) -> Fields
    requires window { IsWithin window memory.now.bytes }
    requires page { inside.now.kept.vmcb + 4096 ≤ window.size }
    ensures stored { values_of result (left_fields leaving.now.nested)
        ≡ stored_in_all registers.now inside.now leaving.now (fields_in (guest_of window memory.now.bytes) inside.now.kept.vmcb) }
    ensures steps { steps.new ≡ steps.old + 34 }
{
    let mut values = read_inside(memory, window, inside.kept.vmcb, steps);
    store_all(registers, inside, leaving, &mut values);
    values
}

/// #VMEXIT of a guest whose VMCB is in memory, with its page of 4096 bytes: the fields that it stores are written there with
/// these values, and what VMRUN kept is brought back (volume 2, '#VMEXIT').
#[tactic(auto, using(svm_model::proofs::WindowLemmas::windows))]
pub fn leave_in_memory(
    registers: &mut Registers,
    kept: &Kept,
    nested: bool,
    values: &Fields,
    memory: &mut HostMemory,
    window: GuestWindow,
)
    requires window { IsWithin window memory.old.bytes }
    requires page { kept.now.vmcb + 4096 ≤ window.size }
    ensures registers { registers.new ≡ brought_back nested kept.now.registers registers.old }
    ensures stored { guest_of window memory.new.bytes ≡ with_fields kept.now.vmcb (values_of values.now (left_fields nested)) (guest_of window memory.old.bytes) }
    ensures others { SameOutside window memory.old memory.new }
{
    put_fields(memory, window, kept.vmcb, values, left_fields(nested));
    bring_back(nested, &kept.registers, registers);
}

/// Stores in the fields of an illegal VMCB the exit that tells so, code -1 (volume 2, 'Canonicalization and Consistency
/// Checks').
pub fn store_refusal(fields: &mut Fields)
    requires { length fields.old.values ≡ 86 }
    ensures { values_of fields.new EXIT_FIELDS ≡ stored_exit invalid_exit None fields.old }
{
    let exit = Exit {
        code: u64::MAX,
        info1: 0,
        info2: 0,
        next_rip: 0,
    };
    let event = fields.value(EventInj);
    store_exit(&exit, None, event, fields);
}

/// An illegal VMCB in memory, with its page of 4096 bytes: nothing is loaded, and the exit is told there with these values
/// (volume 2, 'Canonicalization and Consistency Checks'). RIP is that of the next instruction.
#[tactic(auto, using(svm_model::proofs::WindowLemmas::windows))]
pub fn refuse_in_memory(
    registers: &mut Registers,
    next_rip: u64,
    values: &Fields,
    memory: &mut HostMemory,
    window: GuestWindow,
    vmcb: u64,
)
    requires window { IsWithin window memory.old.bytes }
    requires page { vmcb + 4096 ≤ window.size }
    ensures registers { registers.new ≡ host_registers (record registers.old { rip = next_rip }) }
    ensures stored { guest_of window memory.new.bytes ≡ with_fields vmcb (values_of values.now EXIT_FIELDS) (guest_of window memory.old.bytes) }
    ensures others { SameOutside window memory.old memory.new }
{
    put_fields(memory, window, vmcb, values, &EXIT_FIELDS);
    registers.rip = next_rip;
    reset(registers);
}
