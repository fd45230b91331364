// Sums and differences (volume 3, 'ADC', 'SBB').
ghost use Rattle.std.specs.Prelude.{◌≡◌, ◌^◌, ◌<◌};
ghost use Rattle.svm_model.specs.Instructions.Widths.{bits};
ghost use Rattle.svm_model.specs.Instructions.StatusFlags.{sum_overflows, difference_overflows, sum_of, flags_of_sum, difference_of, flags_of_difference};

use crate::width::{has_even_parity, is_negative, low_bits, modulus};
use svm_model::{Flags, Width};

/// Whether the sum of the signed numbers does not fit: two of one sign give a value of the other.
fn sum_overflows(width: Width, left: u64, right: u64, carry: bool, value: u64) -> bool
    requires left { left < 2 ^ bits width }
    requires right { right < 2 ^ bits width }
    requires value { value ≡ sum_of width left right carry }
    ensures { result ≡ sum_overflows width left right carry }
{
    let negative = is_negative(width, value);
    let left_negative = is_negative(width, left);
    let right_negative = is_negative(width, right);
    (left_negative == right_negative) & (negative != left_negative)
}

/// The sum of two operands and a carry that comes in, modulo 2^w, and its flags (volume 3, 'ADC').
#[tactic(auto, unfolding(svm_model::specs::Instructions::StatusFlags::flags_of_sum))]
pub fn add(width: Width, left: u64, right: u64, carry: bool) -> (u64, Flags)
    requires left { left < 2 ^ bits width }
    requires right { right < 2 ^ bits width }
    ensures value { result.0 ≡ sum_of width left right carry }
    ensures bound { result.0 < 2 ^ bits width }
    ensures flags { result.1 ≡ flags_of_sum width left right carry }
{
    let total = u128::from(left) + u128::from(right) + u128::from(carry);
    let value = low_bits(width, total);
    let flags = Flags {
        cf: total >= modulus(width),
        pf: has_even_parity(value),
        af: left % 16 + right % 16 + u64::from(carry) >= 16,
        zf: value == 0,
        sf: is_negative(width, value),
        of: sum_overflows(width, left, right, carry, value),
    };
    (value, flags)
}

/// Whether the difference of the signed numbers does not fit: two of different signs give a value of the second's.
fn difference_overflows(width: Width, left: u64, right: u64, borrow: bool, value: u64) -> bool
    requires left { left < 2 ^ bits width }
    requires right { right < 2 ^ bits width }
    requires value { value ≡ difference_of width left right borrow }
    ensures { result ≡ difference_overflows width left right borrow }
{
    let negative = is_negative(width, value);
    let left_negative = is_negative(width, left);
    let right_negative = is_negative(width, right);
    (left_negative != right_negative) & (negative == right_negative)
}

/// The first operand less the second and a borrow that comes in, modulo 2^w, and its flags (volume 3, 'SBB').
#[tactic(auto, unfolding(svm_model::specs::Instructions::StatusFlags::flags_of_difference))]
pub fn sub(width: Width, left: u64, right: u64, borrow: bool) -> (u64, Flags)
    requires left { left < 2 ^ bits width }
    requires right { right < 2 ^ bits width }
    ensures value { result.0 ≡ difference_of width left right borrow }
    ensures bound { result.0 < 2 ^ bits width }
    ensures flags { result.1 ≡ flags_of_difference width left right borrow }
{
    let left_whole = u128::from(left);
    let taken = u128::from(right) + u128::from(borrow);
    let value = low_bits(width, left_whole + modulus(width) - taken);
    let flags = Flags {
        cf: left_whole < taken,
        pf: has_even_parity(value),
        af: left % 16 < right % 16 + u64::from(borrow),
        zf: value == 0,
        sf: is_negative(width, value),
        of: difference_overflows(width, left, right, borrow, value),
    };
    (value, flags)
}
