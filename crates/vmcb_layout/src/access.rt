// One field in memory.
ghost use Rattle.std.specs.Prelude.{◌≡◌, ◌+◌, ◌^◌, ◌<◌, ◌≤◌, take, IfOk, MatchResult};
ghost use Rattle.svm_model.specs.Memory.Bytes.{IsWithin, SameOutside, bytes_at, bytes_of_result, guest_of};
ghost use Rattle.svm_model.specs.Svm.Vmcb.{fields_in, value as value_in, with_field, with_fields, with_value};
ghost use Rattle.svm_model.specs.Svm.VmcbLayout.{place_of};
ghost use Rattle.svm_model.specs.Svm.Vmcb.{values_of};
ghost use Rattle.vmcb_layout.specs.Widths.{IsWidth};

use crate::fields::Fields;
use crate::pieces::number_in;
use crate::places::line_of;
use host_memory::{GuestWindow, HostMemory, Steps};
use std::sync::ledger::Ledger;
use svm_model::{Field, OutsideMemory};

/// The value of one field of the VMCB at a guest-physical address, by one read (volume 2, 'VMCB Layout'). Where a byte of
/// the field is outside the guest's memory, the answer is the first such address.
#[tactic(auto, using(svm_model::proofs::WindowLemmas::windows, crate::proofs::LayoutLemmas::places))]
pub fn get<L: Ledger>(
    memory: &HostMemory,
    window: GuestWindow,
    vmcb: u64,
    field: Field,
    steps: &mut Steps<L>,
) -> Result<u64, OutsideMemory>
    requires window { IsWithin window memory.now.bytes }
    requires vmcb { vmcb + 4096 < 2 ^ 64 }
    ensures value { MatchResult (bytes_at (guest_of window memory.now.bytes) (vmcb + (place_of field).offset) (place_of field).width)
        (λ _. result ≡ Ok (value_in (fields_in (guest_of window memory.now.bytes) vmcb) field))
        (λ outside. result ≡ Err outside) }
    // The same, where the caller knows that the field is there.
    ensures inside { vmcb + (place_of field).offset + (place_of field).width ≤ window.size
        → result ≡ Ok (value_in (fields_in (guest_of window memory.now.bytes) vmcb) field) }
    ensures fits { IfOk result (λ value. value < 256 ^ (place_of field).width) }
    ensures steps { steps.new ≡ steps.old + 1 }
{
    let place = line_of(field);
    let mut bytes = [0; 16];
    memory.read_guest(
        window,
        vmcb + place.offset as u64,
        place.width,
        &mut bytes,
        steps,
    )?;
    Ok(number_in(&bytes, 0, place.width))
}

/// The bytes of a number of this width, with others behind them.
#[tactic(auto, using(crate::proofs::LayoutLemmas::parts))]
fn bytes_of(value: u64, width: u8) -> [u8; 16]
    requires { IsWidth width }
    ensures { take width result ≡ bytes_of_result width value }
{
    let mut bytes = [0; 16];
    bytes[..8].copy_from_slice(&value.to_le_bytes());
    bytes
}

/// Gives one field of the VMCB at a guest-physical address another value, which fits its width, by one write of the
/// field's bytes alone (volume 2, 'VMCB Layout'). Where a byte of the field is outside the guest's memory, the answer is the
/// first such address, and nothing is written.
#[tactic(auto, unfolding(svm_model::specs::Svm::Vmcb::with_field), using(svm_model::proofs::WindowLemmas::windows, crate::proofs::LayoutLemmas::places))]
pub fn put(
    memory: &mut HostMemory,
    window: GuestWindow,
    vmcb: u64,
    field: Field,
    value: u64,
) -> Result<(), OutsideMemory>
    requires window { IsWithin window memory.old.bytes }
    requires vmcb { vmcb + 4096 < 2 ^ 64 }
    requires fits { value < 256 ^ (place_of field).width }
    ensures put { MatchResult (bytes_at (guest_of window memory.old.bytes) (vmcb + (place_of field).offset) (place_of field).width)
        (λ _. (result ≡ Ok tt) × (guest_of window memory.new.bytes ≡ with_field vmcb field value (guest_of window memory.old.bytes)))
        (λ outside. (result ≡ Err outside) × (memory.new ≡ memory.old)) }
    // The same, where the caller knows that the field is there: no other field changes its value.
    ensures alone { vmcb + (place_of field).offset + (place_of field).width ≤ window.size → (result ≡ Ok tt)
        × (fields_in (guest_of window memory.new.bytes) vmcb ≡ with_value (fields_in (guest_of window memory.old.bytes) vmcb) field value) }
    ensures page { vmcb + 4096 ≤ window.size → guest_of window memory.new.bytes ≡ with_field vmcb field value (guest_of window memory.old.bytes) }
    ensures others { SameOutside window memory.old memory.new }
{
    let place = line_of(field);
    let bytes = bytes_of(value, place.width);
    memory.write_guest(window, vmcb + place.offset as u64, &bytes, place.width)
}

/// Writes the values of these fields to the VMCB at a guest-physical address, whose page is all in the guest's memory: those
/// fields and no other byte change (volume 2, 'VMCB Layout').
#[tactic(auto, unfolding(svm_model::specs::Svm::Vmcb::with_fields), using(svm_model::proofs::WindowLemmas::windows, crate::proofs::LayoutLemmas::places))]
pub fn put_fields(
    memory: &mut HostMemory,
    window: GuestWindow,
    vmcb: u64,
    fields: &Fields,
    list: &[Field],
)
    requires window { IsWithin window memory.old.bytes }
    requires page { vmcb + 4096 ≤ window.size }
    ensures put { guest_of window memory.new.bytes ≡ with_fields vmcb (values_of fields.now list.now) (guest_of window memory.old.bytes) }
    ensures others { SameOutside window memory.old memory.new }
{
    let [field, rest @ ..] = list else {
        return;
    };
    let _ = put(memory, window, vmcb, *field, fields.value(*field));
    put_fields(memory, window, vmcb, fields, rest);
}
