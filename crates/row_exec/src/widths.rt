// What a width says in numbers.
ghost use Rattle.std.specs.Prelude.{◌≡◌, ◌-◌, ◌^◌};
ghost use Rattle.svm_model.specs.Instructions.Widths.{bits};

use svm_model::Width;

/// The operand whose bits are all 1.
pub fn ones(width: Width) -> u64
    ensures { result ≡ 2 ^ bits width - 1 }
{
    match width {
        Width::W8 => 0xff,
        Width::W16 => 0xffff,
        Width::W32 => 0xffff_ffff,
        Width::W64 => u64::MAX,
    }
}

/// The number of bits.
pub fn bit_count(width: Width) -> u64
    ensures { result ≡ bits width }
{
    match width {
        Width::W8 => 8,
        Width::W16 => 16,
        Width::W32 => 32,
        Width::W64 => 64,
    }
}
