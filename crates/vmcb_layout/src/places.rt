// The table's lines.
ghost use Rattle.std.specs.Prelude.{◌≡◌, ◌<◌};
ghost use Rattle.svm_model.specs.Svm.VmcbLayout.{number_of, place_at as place_of_number, place_of};
ghost use Rattle.vmcb_layout.specs.Widths.{IsPlace};

use svm_model::{Field, FieldPlace, LAYOUT};

/// The number of a field: its line in the layout.
#[tactic(auto, unfolding(svm_model::specs::Svm::VmcbLayout::number_of))]
pub(crate) fn number(field: Field) -> usize
    ensures value { result ≡ number_of field }
    ensures bound { result < 86 }
{
    field as usize
}

/// The place of the field of this number.
#[tactic(auto, unfolding(svm_model::specs::Svm::VmcbLayout::place_at, svm_model::specs::Svm::VmcbLayout::layout))]
pub(crate) fn place_at(number: usize) -> FieldPlace
    requires { number < 86 }
    ensures { result ≡ place_of_number number }
{
    // Indexing the constant itself would build it anew at each call.
    let places: &'static [FieldPlace] = &LAYOUT;
    places[number]
}

/// The line of a field.
#[tactic(auto, using(crate::proofs::LayoutLemmas::places))]
pub(crate) fn line_of(field: Field) -> FieldPlace
    ensures line { result ≡ place_of field }
    ensures place { IsPlace result }
    ensures bound { number_of field < 86 }
{
    place_at(number(field))
}

/// The offset of a field in the VMCB and its width, both in bytes (volume 2, 'VMCB Layout'). Widths are 1, 2, 4 and 8.
pub fn place(field: Field) -> (u16, u8)
    ensures offset { result.0 ≡ (place_of field).offset }
    ensures width { result.1 ≡ (place_of field).width }
{
    let place = line_of(field);
    (place.offset, place.width)
}
