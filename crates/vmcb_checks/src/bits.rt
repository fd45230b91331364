// Bits of words and of fields.
ghost use Rattle.std.specs.Prelude.{◌≡◌, ◌<◌};
ghost use Rattle.svm_model.specs.Memory.Bits.{bit as bit_of, has_some as some_common};
ghost use Rattle.svm_model.specs.Svm.VmcbRules.{exceeds as exceeds_bits, is_past_width as past_width};

use svm_model::Field;
use vmcb_layout::Fields;

/// Whether the bit of this number is set.
pub(crate) fn bit(number: u8, word: u64) -> bool
    requires { number < 64 }
    ensures { result ≡ bit_of number word }
{
    word & (1 << number) == 1 << number
}

/// Whether a word has some of these bits.
pub(crate) fn has_some(word: u64, bits: u64) -> bool
    ensures { result ≡ some_common word bits }
{
    word & bits != 0
}

/// Whether a field has a bit outside these.
pub(crate) fn exceeds(field: Field, bits: u64, fields: &Fields) -> bool
    ensures { result ≡ exceeds_bits field bits fields.now }
{
    has_some(fields.value(field), u64::MAX - bits)
}

/// Whether a map of so many bytes goes past the physical width of 40 bits. Bits 11:0 of its base are taken as 0.
pub(crate) fn is_past_width(field: Field, size: u16, fields: &Fields) -> bool
    ensures { result ≡ past_width field size fields.now }
{
    let base = fields.value(field) / 4096 * 4096;
    base > (1 << 40) - u64::from(size)
}
