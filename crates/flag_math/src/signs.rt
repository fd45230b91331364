// Operands as signed numbers.
ghost use Rattle.std.specs.Prelude.{◌≡◌, ◌^◌, ◌<◌, ◌≤◌, pos, unsigned_abs};
ghost use Rattle.svm_model.specs.Instructions.Widths.{bits, as_signed, bits_for, fits_signed};

use crate::width::{is_negative, low_bits};
use svm_model::Width;

/// The number of values of a width, as a signed number.
pub fn signed_modulus(width: Width) -> i128
    ensures value { result ≡ pos (2 ^ bits width) }
    ensures least { 2 ^ 8 ≤ 2 ^ bits width }
    ensures most { 2 ^ bits width ≤ 2 ^ 64 }
{
    match width {
        Width::W8 => 0x100,
        Width::W16 => 0x1_0000,
        Width::W32 => 0x1_0000_0000,
        Width::W64 => 0x1_0000_0000_0000_0000,
    }
}

/// The operand, read as a signed number.
pub fn signed_value(width: Width, value: u64) -> i128
    requires { value < 2 ^ bits width }
    ensures value { result ≡ as_signed (bits width) value }
    ensures size { unsigned_abs result ≤ 2 ^ 63 }
{
    if is_negative(width, value) {
        i128::from(value) - signed_modulus(width)
    } else {
        i128::from(value)
    }
}

/// Whether a number fits the width as a signed number.
pub fn fits_signed(width: Width, number: i128) -> bool
    ensures { result ≡ fits_signed width number }
{
    let half = signed_modulus(width) / 2;
    (-half <= number) & (number < half)
}

/// The bits of the width that stand for a number in two's complement.
#[tactic(auto, using(crate::proofs::Words::low_bits_of_pattern))]
pub fn bits_for(width: Width, number: i128) -> u64
    ensures value { result ≡ bits_for (bits width) number }
    ensures bound { result < 2 ^ bits width }
{
    low_bits(width, number.cast_unsigned())
}
