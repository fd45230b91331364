// Multiplications (volume 3, 'MUL', 'IMUL').
ghost use Rattle.std.specs.Prelude.{◌≡◌, ◌^◌, ◌<◌, ◌%◌, ◌/◌, true, false, ◌*ℤ◌};
ghost use Rattle.svm_model.specs.Instructions.Widths.{bits, as_signed};
ghost use Rattle.svm_model.specs.Instructions.Products.{product_of, low_half, high_half, flags_of_product, extension_of};

use crate::signs::signed_value;
use crate::width::{high_bits, is_negative, low_bits, modulus};
use svm_model::{Flags, Width};

/// The bits of the width, and as many above them.
fn halves(width: Width, number: u128) -> (u64, u64)
    ensures low { result.0 ≡ number % 2 ^ bits width }
    ensures high { result.1 ≡ number / 2 ^ bits width % 2 ^ bits width }
    ensures low_bound { result.0 < 2 ^ bits width }
    ensures high_bound { result.1 < 2 ^ bits width }
{
    (
        low_bits(width, number),
        low_bits(width, high_bits(width, number)),
    )
}

#[tactic(auto, unfolding(svm_model::specs::Instructions::Products::product_of))]
fn unsigned_product(width: Width, left: u64, right: u64) -> (u64, u64)
    requires left { left < 2 ^ bits width }
    requires right { right < 2 ^ bits width }
    ensures low { result.0 ≡ low_half width (product_of width false left right) }
    ensures high { result.1 ≡ high_half width (product_of width false left right) }
    ensures low_bound { result.0 < 2 ^ bits width }
    ensures high_bound { result.1 < 2 ^ bits width }
{
    halves(width, u128::from(left) * u128::from(right))
}

fn exact_product(width: Width, left: u64, right: u64) -> i128
    requires left { left < 2 ^ bits width }
    requires right { right < 2 ^ bits width }
    ensures { result ≡ as_signed (bits width) left *ℤ as_signed (bits width) right }
{
    signed_value(width, left) * signed_value(width, right)
}

#[tactic(auto, using(crate::proofs::Words::low_half_of_pattern, crate::proofs::Words::high_half_of_pattern), unfolding(svm_model::specs::Instructions::Products::product_of))]
fn signed_product(width: Width, left: u64, right: u64) -> (u64, u64)
    requires left { left < 2 ^ bits width }
    requires right { right < 2 ^ bits width }
    ensures low { result.0 ≡ low_half width (product_of width true left right) }
    ensures high { result.1 ≡ high_half width (product_of width true left right) }
    ensures low_bound { result.0 < 2 ^ bits width }
    ensures high_bound { result.1 < 2 ^ bits width }
{
    halves(width, exact_product(width, left, right).cast_unsigned())
}

fn product(width: Width, signed: bool, left: u64, right: u64) -> (u64, u64)
    requires left { left < 2 ^ bits width }
    requires right { right < 2 ^ bits width }
    ensures low { result.0 ≡ low_half width (product_of width signed left right) }
    ensures high { result.1 ≡ high_half width (product_of width signed left right) }
    ensures low_bound { result.0 < 2 ^ bits width }
    ensures high_bound { result.1 < 2 ^ bits width }
{
    if signed {
        signed_product(width, left, right)
    } else {
        unsigned_product(width, left, right)
    }
}

/// The high half that says no more than the low half.
fn extension(width: Width, signed: bool, low: u64) -> u64
    ensures { result ≡ extension_of width signed low }
{
    if signed && is_negative(width, low) {
        (modulus(width) - 1) as u64
    } else {
        0
    }
}

/// The low and the high half of a product of signed or unsigned operands, and the flags: CF and OF are both set where the
/// low half, extended, is another number than the product; the others stay as `before` (volume 3, 'MUL', 'IMUL').
#[tactic(auto, unfolding(svm_model::specs::Instructions::Products::flags_of_product))]
pub fn multiply(
    width: Width,
    signed: bool,
    left: u64,
    right: u64,
    before: Flags,
) -> (u64, u64, Flags)
    requires left { left < 2 ^ bits width }
    requires right { right < 2 ^ bits width }
    ensures low { result.0 ≡ low_half width (product_of width signed left right) }
    ensures high { result.1 ≡ high_half width (product_of width signed left right) }
    ensures low_bound { result.0 < 2 ^ bits width }
    ensures high_bound { result.1 < 2 ^ bits width }
    ensures flags { result.2 ≡ flags_of_product width signed (product_of width signed left right) before }
{
    let (low, high) = product(width, signed, left, right);
    let carries = high != extension(width, signed, low);
    let flags = Flags {
        cf: carries,
        of: carries,
        ..before
    };
    (low, high, flags)
}
