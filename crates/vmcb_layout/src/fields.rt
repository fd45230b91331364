// The values of all fields.
ghost use Rattle.std.specs.Prelude.{◌≡◌, ◌<◌, ◌^◌, replicate, slice_set};

use crate::places::number;
use std::marker::Model;
use svm_model::{Field, Segment};

/// A value for each field of a VMCB (volume 2, 'VMCB Layout'), each within the width of its field. In clauses it is the
/// record `Fields` of svm_model.
#[derive(Drop)]
pub struct Fields {
    values: [u64; 86],
}

impl Model for Fields {
    ghost use Rattle.svm_model.specs.Svm.Vmcb.{Fields as FieldsRecord};
    ghost use Rattle.vmcb_layout.specs.Widths.{AreOfWidth};

    ghost Value = { FieldsRecord };

    ghost view = { λ f. record { values = f.values } };

    ghost invariant = { λ f. AreOfWidth f.values };
}

impl Fields {
    ghost use Rattle.svm_model.specs.Svm.Vmcb.{field_bit, segment_in, value as value_in, with_value};
    ghost use Rattle.svm_model.specs.Svm.VmcbLayout.{number_of, place_at, place_of};
    ghost use Rattle.vmcb_layout.specs.Widths.{HasParts};

    /// A VMCB in which every field is 0.
    #[tactic(auto, using(crate::proofs::LayoutLemmas::places))]
    pub fn zeros() -> Fields
        ensures { result.values ≡ replicate 86 0 }
    {
        Fields { values: [0; 86] }
    }

    /// The same values once more.
    pub fn copied(&self) -> Fields
        ensures { result ≡ self.now }
    {
        Fields {
            values: self.values,
        }
    }

    /// The value of a field.
    #[tactic(auto, unfolding(svm_model::specs::Svm::Vmcb::value))]
    pub fn value(&self, field: Field) -> u64
        ensures value { result ≡ value_in self.now field }
        ensures fits { result < 256 ^ (place_of field).width }
    {
        self.values[number(field)]
    }

    /// Whether the bit of this number is set in a field; none is above bit 63.
    #[tactic(auto, using(crate::proofs::HighBits::high_bits))]
    pub fn has_bit(&self, field: Field, number: u16) -> bool
        ensures { result ≡ field_bit field number self.now }
    {
        let value = self.value(field);
        if number >= 64 {
            return false;
        }
        let bit = 1 << number;
        value & bit == bit
    }

    /// Gives one field another value, which fits its width; no other changes.
    #[tactic(auto, unfolding(svm_model::specs::Svm::Vmcb::with_value))]
    pub fn set(&mut self, field: Field, value: u64)
        requires fits { value < 256 ^ (place_of field).width }
        ensures { self.new ≡ with_value self.old field value }
    {
        self.values[number(field)] = value;
    }

    /// Gives the field of a number another value.
    pub(crate) fn set_at(&mut self, number: usize, value: u64)
        requires number { number < 86 }
        requires fits { value < 256 ^ (place_at number).width }
        ensures { self.new.values ≡ slice_set self.old.values number value }
    {
        self.values[number] = value;
    }

    /// A segment or table register, by the field of its selector: selector, attributes, limit and base.
    #[tactic(auto, using(crate::proofs::LayoutLemmas::parts))]
    pub fn segment(&self, selector: Field) -> Segment
        requires { HasParts (number_of selector) }
        ensures { result ≡ segment_in selector self.now }
    {
        let first = number(selector);
        Segment {
            selector: self.values[first] as u16,
            attributes: self.values[first + 1] as u16,
            limit: self.values[first + 2] as u32,
            base: self.values[first + 3],
        }
    }
}
