// Numbers of a script: decimal, or hexadecimal behind 0x, of at most 64 bits.

ghost use Rattle.std.specs.Prelude.{◌≡◌, ◌≤◌, ◌<◌, ◌+◌, ◌*◌, ◌^◌};
ghost use Rattle.std.specs.Option.{SomeIff};
ghost use Rattle.svm_model.specs.Formats.ScriptWords.{digit_of, digits_in, number_in};

use svm_model::ScriptReason;

// The value of a digit, 16 where the byte is none.
fn digit_of(byte: u8) -> u8
    ensures { result ≡ digit_of byte }
{
    if b'0' <= byte && byte <= b'9' {
        byte - b'0'
    } else if b'a' <= byte && byte <= b'f' {
        byte - b'a' + 10
    } else if b'A' <= byte && byte <= b'F' {
        byte - b'A' + 10
    } else {
        16
    }
}

// A number with one more digit behind it, where it has at most 64 bits.
fn with_digit(base: u8, number: u64, digit: u8) -> Option<u64>
    ensures { SomeIff result (base * number + digit < 2 ^ 64) (base * number + digit) }
{
    (base as u64).checked_mul(number)?.checked_add(digit as u64)
}

// One or more digits of a base.
fn digits_in(base: u8, bytes: &[u8]) -> Result<u64, ScriptReason>
    requires { 1 ≤ base }
    ensures { result ≡ digits_in base bytes.now }
{
    if bytes.is_empty() {
        return Err(ScriptReason::Number);
    }
    let mut number = 0;
    for byte in bytes {
        let digit = digit_of(*byte);
        if digit >= base {
            return Err(ScriptReason::Number);
        }
        let Some(more) = with_digit(base, number, digit) else {
            return Err(ScriptReason::Number);
        };
        number = more;
    }
    Ok(number)
}

/// The number that a word is. A decimal number has no leading zero, and a hexadecimal one any number of them.
pub fn number_in(word: &[u8]) -> Result<u64, ScriptReason>
    ensures { result ≡ number_in word.now }
{
    let [first, second, digits @ ..] = word else {
        return digits_in(10, word);
    };
    if *first != b'0' {
        return digits_in(10, word);
    }
    if *second != b'x' {
        return Err(ScriptReason::Number);
    }
    digits_in(16, digits)
}
