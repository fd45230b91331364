// What a width says in numbers, and the flags that are of a result alone.
ghost use Rattle.std.specs.Prelude.{◌≡◌, ◌-◌, ◌/◌, ◌%◌, ◌^◌, ◌<◌};
ghost use Rattle.svm_model.specs.Instructions.Widths.{bits, top_bit};
ghost use Rattle.svm_model.specs.Instructions.StatusFlags.{parity};

use svm_model::Width;

/// The number of values of a width.
pub fn modulus(width: Width) -> u128
    ensures { result ≡ 2 ^ bits width }
{
    match width {
        Width::W8 => 0x100,
        Width::W16 => 0x1_0000,
        Width::W32 => 0x1_0000_0000,
        Width::W64 => 0x1_0000_0000_0000_0000,
    }
}

/// Half the number of values: the least operand that is negative as a signed number.
pub fn half(width: Width) -> u64
    ensures { result ≡ 2 ^ (bits width - 1) }
{
    match width {
        Width::W8 => 0x80,
        Width::W16 => 0x8000,
        Width::W32 => 0x8000_0000,
        Width::W64 => 0x8000_0000_0000_0000,
    }
}

/// Whether the operand is negative as a signed number.
pub fn is_negative(width: Width, value: u64) -> bool
    ensures { result ≡ top_bit width value }
{
    value >= half(width)
}

/// The low bits of a number, as many as the width has.
pub fn low_bits(width: Width, number: u128) -> u64
    ensures value { result ≡ number % 2 ^ bits width }
    ensures bound { result < 2 ^ bits width }
{
    match width {
        Width::W8 => (number % 0x100) as u64,
        Width::W16 => (number % 0x1_0000) as u64,
        Width::W32 => (number % 0x1_0000_0000) as u64,
        Width::W64 => (number % 0x1_0000_0000_0000_0000) as u64,
    }
}

/// The bits of a number above as many as the width has.
pub fn high_bits(width: Width, number: u128) -> u128
    ensures { result ≡ number / 2 ^ bits width }
{
    match width {
        Width::W8 => number / 0x100,
        Width::W16 => number / 0x1_0000,
        Width::W32 => number / 0x1_0000_0000,
        Width::W64 => number / 0x1_0000_0000_0000_0000,
    }
}

/// Whether the low byte has an even number of ones.
pub fn has_even_parity(value: u64) -> bool
    ensures { result ≡ parity value }
{
    (value % 0x100).count_ones() % 2 == 0
}
