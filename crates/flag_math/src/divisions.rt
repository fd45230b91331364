// Divisions (volume 3, 'DIV', 'IDIV').
ghost use Rattle.std.specs.Prelude.{◌≡◌, ◌^◌, ◌<◌, true, false, IfOk};
ghost use Rattle.svm_model.specs.Instructions.Widths.{bits};
ghost use Rattle.svm_model.specs.Instructions.Products.{dividend_of, division_of};

use crate::signs::{bits_for, fits_signed, signed_modulus, signed_value};
use crate::width::modulus;
use svm_model::{NoQuotient, Width};

#[tactic(auto, unfolding(svm_model::specs::Instructions::Products::division_of))]
fn unsigned_division(
    width: Width,
    high: u64,
    low: u64,
    divisor: u64,
) -> Result<(u64, u64), NoQuotient>
    requires high { high < 2 ^ bits width }
    requires low { low < 2 ^ bits width }
    requires divisor { divisor < 2 ^ bits width }
    requires some { 0 < divisor }
    ensures value { result ≡ division_of width false high low divisor }
    ensures quotient_bound { IfOk result (λ r. r.0 < 2 ^ bits width) }
    ensures remainder_bound { IfOk result (λ r. r.1 < 2 ^ bits width) }
{
    let modulus = modulus(width);
    let dividend = u128::from(high) * modulus + u128::from(low);
    let divisor = u128::from(divisor);
    let quotient = dividend / divisor;
    if quotient >= modulus {
        return Err(NoQuotient);
    }
    Ok((quotient as u64, (dividend % divisor) as u64))
}

/// The dividend, read as a signed number of twice the width.
#[tactic(auto, using(crate::proofs::Words::signed_halves))]
fn signed_dividend(width: Width, high: u64, low: u64) -> i128
    requires high { high < 2 ^ bits width }
    requires low { low < 2 ^ bits width }
    ensures { result ≡ dividend_of width true high low }
{
    signed_value(width, high) * signed_modulus(width) + i128::from(low)
}

#[tactic(auto, unfolding(svm_model::specs::Instructions::Products::division_of))]
fn signed_division(
    width: Width,
    high: u64,
    low: u64,
    divisor: u64,
) -> Result<(u64, u64), NoQuotient>
    requires high { high < 2 ^ bits width }
    requires low { low < 2 ^ bits width }
    requires divisor { divisor < 2 ^ bits width }
    requires some { 0 < divisor }
    ensures value { result ≡ division_of width true high low divisor }
    ensures quotient_bound { IfOk result (λ r. r.0 < 2 ^ bits width) }
    ensures remainder_bound { IfOk result (λ r. r.1 < 2 ^ bits width) }
{
    let dividend = signed_dividend(width, high, low);
    let divisor = signed_value(width, divisor);
    let Some(quotient) = dividend.checked_div(divisor) else {
        return Err(NoQuotient);
    };
    if !fits_signed(width, quotient) {
        return Err(NoQuotient);
    }
    Ok((
        bits_for(width, quotient),
        bits_for(width, dividend % divisor),
    ))
}

/// The quotient and the remainder of a dividend of twice the width, given by its halves (volume 3, 'DIV', 'IDIV').
///
/// The quotient is rounded towards zero, and the remainder has the dividend's sign. NoQuotient is the answer for a divisor of
/// 0 and for a quotient that has no room in the width, and only then. Divisions leave all flags.
#[tactic(auto, unfolding(svm_model::specs::Instructions::Products::division_of))]
pub fn divide(
    width: Width,
    signed: bool,
    high: u64,
    low: u64,
    divisor: u64,
) -> Result<(u64, u64), NoQuotient>
    requires high { high < 2 ^ bits width }
    requires low { low < 2 ^ bits width }
    requires divisor { divisor < 2 ^ bits width }
    ensures value { result ≡ division_of width signed high low divisor }
    ensures quotient_bound { IfOk result (λ r. r.0 < 2 ^ bits width) }
    ensures remainder_bound { IfOk result (λ r. r.1 < 2 ^ bits width) }
{
    if divisor == 0 {
        Err(NoQuotient)
    } else if signed {
        signed_division(width, high, low, divisor)
    } else {
        unsigned_division(width, high, low, divisor)
    }
}
