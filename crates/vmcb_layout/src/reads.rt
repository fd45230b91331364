// All fields of a VMCB, by few reads: neighbours are read together.
ghost use Rattle.std.specs.Prelude.{List, ◌∷◌, ◌≡◌, ◌+◌, ◌^◌, ◌<◌, ◌≤◌, IfErr, IfOk};
ghost use Rattle.svm_model.specs.Memory.Bytes.{IsWithin, guest_of};
ghost use Rattle.svm_model.specs.Svm.Vmcb.{fields_at, fields_in};
ghost use Rattle.svm_model.specs.declared.vmcbs.FieldPlace.{FieldPlace as FieldPlaceRecord};
ghost use Rattle.vmcb_layout.specs.Reading.{IsPiece, reads_from, value_at};
ghost use Rattle.vmcb_layout.specs.Widths.{IsPlace};

use crate::fields::Fields;
use crate::pieces::{number_in, sixteen};
use crate::places::place_at;
use host_memory::{GuestWindow, HostMemory, Steps};
use std::sync::ledger::Ledger;
use svm_model::{FieldPlace, OutsideMemory};

/// Sixteen bytes of a VMCB, from an offset on.
#[derive(Drop)]
pub(crate) struct Piece {
    pub offset: u16,
    pub bytes: [u8; 16],
}

/// Another piece, where this one lacks a field.
#[tactic(auto, unfolding(crate::specs::Reading::reads_from))]
fn piece_with<L: Ledger>(
    memory: &HostMemory,
    window: GuestWindow,
    vmcb: u64,
    place: FieldPlace,
    piece: &mut Piece,
    steps: &mut Steps<L>,
)
    requires window { IsWithin window memory.now.bytes }
    requires inside { vmcb + 0x670 ≤ window.size }
    requires place { IsPlace place }
    requires piece { IsPiece (guest_of window memory.now.bytes) vmcb piece.old }
    ensures piece { IsPiece (guest_of window memory.now.bytes) vmcb piece.new }
    ensures low { piece.new.offset ≤ place.offset }
    ensures high { place.offset + place.width ≤ piece.new.offset + 16 }
    ensures steps { (places : List FieldPlaceRecord) → steps.new + reads_from places piece.new.offset ≡ steps.old + reads_from (place ∷ places) piece.old.offset }
{
    let end = place.offset + u16::from(place.width);
    if place.offset < piece.offset || end > piece.offset + 16 {
        piece.offset = place.offset.min(0x660);
        piece.bytes = sixteen(memory, window, vmcb + u64::from(piece.offset), steps);
    }
}

/// The value of a field.
#[tactic(auto, using(crate::proofs::LayoutLemmas::places))]
fn field_value<L: Ledger>(
    memory: &HostMemory,
    window: GuestWindow,
    vmcb: u64,
    place: FieldPlace,
    piece: &mut Piece,
    steps: &mut Steps<L>,
) -> u64
    requires window { IsWithin window memory.now.bytes }
    requires inside { vmcb + 0x670 ≤ window.size }
    requires place { IsPlace place }
    requires piece { IsPiece (guest_of window memory.now.bytes) vmcb piece.old }
    ensures value { result ≡ value_at (guest_of window memory.now.bytes) vmcb place }
    ensures fits { result < 256 ^ place.width }
    ensures piece { IsPiece (guest_of window memory.now.bytes) vmcb piece.new }
    ensures steps { (places : List FieldPlaceRecord) → steps.new + reads_from places piece.new.offset ≡ steps.old + reads_from (place ∷ places) piece.old.offset }
{
    piece_with(memory, window, vmcb, place, piece, steps);
    number_in(&piece.bytes, place.offset - piece.offset, place.width)
}

/// The values of all fields of a VMCB that is there up to the end of its last field, by 34 reads (volume 2, 'VMCB Layout').
#[tactic(auto, using(crate::proofs::LayoutLemmas::places))]
pub fn read_inside<L: Ledger>(
    memory: &HostMemory,
    window: GuestWindow,
    vmcb: u64,
    steps: &mut Steps<L>,
) -> Fields
    requires window { IsWithin window memory.now.bytes }
    requires inside { vmcb + 0x670 ≤ window.size }
    ensures fields { result ≡ fields_in (guest_of window memory.now.bytes) vmcb }
    ensures steps { steps.new ≡ steps.old + 34 }
{
    let mut fields = Fields::zeros();
    let mut piece = Piece {
        offset: 0,
        bytes: sixteen(memory, window, vmcb, steps),
    };
    for number in 0..86 {
        let value = field_value(memory, window, vmcb, place_at(number), &mut piece, steps);
        fields.set_at(number, value);
    }
    fields
}

/// The values of all fields of the VMCB at a guest-physical address, by 34 reads (volume 2, 'VMCB Layout'). Where its page
/// of 4096 bytes is not all in the guest's memory, the answer is the first address from the VMCB on that is outside, and
/// nothing is read.
#[tactic(auto, unfolding(svm_model::specs::Svm::Vmcb::fields_at), using(svm_model::proofs::WindowLemmas::windows, crate::proofs::LayoutLemmas::places))]
pub fn read_fields<L: Ledger>(
    memory: &HostMemory,
    window: GuestWindow,
    vmcb: u64,
    steps: &mut Steps<L>,
) -> Result<Fields, OutsideMemory>
    requires window { IsWithin window memory.now.bytes }
    ensures fields { result ≡ fields_at (guest_of window memory.now.bytes) vmcb }
    ensures steps { IfOk result (λ _. steps.new ≡ steps.old + 34) }
    ensures unread { IfErr result (λ _. steps.new ≡ steps.old) }
{
    if window.size < 4096 || vmcb > window.size - 4096 {
        return Err(OutsideMemory {
            address: vmcb.max(window.size),
        });
    }
    Ok(read_inside(memory, window, vmcb, steps))
}
