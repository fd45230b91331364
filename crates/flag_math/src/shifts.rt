// Shifts and rotations, one bit at a time (volume 3, 'ROL', 'ROR', 'SAL SHL', 'SHR', 'SAR').
ghost use Rattle.std.specs.Prelude.{◌≡◌, ◌-◌, ◌%◌, ◌^◌, ◌<◌};
ghost use Rattle.svm_model.specs.Instructions.Widths.{bits};
ghost use Rattle.svm_model.specs.Instructions.Shifts.{shift_count, bit_out, bit_in, moved, moved_by, last_out, shift_of, overflow_of_one, overflow_after, flags_after, flags_of_shift};

use crate::width::{half, has_even_parity, is_negative};
use svm_model::{Flags, ShiftKind, Width};

fn shift_count(width: Width, count: u8) -> u8
    ensures { result ≡ shift_count width count }
{
    match width {
        Width::W64 => count % 64,
        _ => count % 32,
    }
}

/// The bit that leaves the operand.
fn bit_out(width: Width, kind: ShiftKind, value: u64) -> bool
    ensures { result ≡ bit_out width kind value }
{
    match kind {
        ShiftKind::Rol | ShiftKind::Shl => is_negative(width, value),
        ShiftKind::Ror | ShiftKind::Shr | ShiftKind::Sar => value % 2 == 1,
    }
}

/// The bit that comes in at the other end.
fn bit_in(width: Width, kind: ShiftKind, value: u64) -> bool
    ensures { result ≡ bit_in width kind value }
{
    match kind {
        ShiftKind::Rol | ShiftKind::Ror => bit_out(width, kind, value),
        ShiftKind::Shl | ShiftKind::Shr => false,
        ShiftKind::Sar => is_negative(width, value),
    }
}

/// The operand without its highest bit.
fn below_top(width: Width, value: u64) -> u64
    requires { value < 2 ^ bits width }
    ensures { result ≡ value % 2 ^ (bits width - 1) }
{
    let half = half(width);
    if value >= half { value - half } else { value }
}

/// The operand moved by one bit.
fn moved(width: Width, kind: ShiftKind, value: u64) -> u64
    requires { value < 2 ^ bits width }
    ensures value { result ≡ moved width kind value }
    ensures bound { result < 2 ^ bits width }
{
    let entering = u64::from(bit_in(width, kind, value));
    match kind {
        ShiftKind::Rol | ShiftKind::Shl => 2 * below_top(width, value) + entering,
        ShiftKind::Ror | ShiftKind::Shr | ShiftKind::Sar => value / 2 + entering * half(width),
    }
}

/// The operand moved by so many bits.
#[tactic(auto, unfolding(svm_model::specs::Instructions::Shifts::moved_by))]
fn moved_by(width: Width, kind: ShiftKind, value: u64, count: u8) -> u64
    requires { value < 2 ^ bits width }
    ensures value { result ≡ moved_by width kind value count }
    ensures bound { result < 2 ^ bits width }
{
    let mut now = value;
    for _turn in 0..count {
        now = moved(width, kind, now);
    }
    now
}

/// OF after one bit.
fn overflow_of_one(width: Width, kind: ShiftKind, value: u64) -> bool
    requires { value < 2 ^ bits width }
    ensures { result ≡ overflow_of_one width kind value }
{
    let after = moved(width, kind, value);
    let highest = is_negative(width, after);
    match kind {
        ShiftKind::Rol | ShiftKind::Shl => highest != bit_out(width, kind, value),
        ShiftKind::Ror => highest != (2 * below_top(width, after) >= half(width)),
        ShiftKind::Shr => is_negative(width, value),
        ShiftKind::Sar => false,
    }
}

/// The operand moved by so many bits, and the last bit that left it.
#[tactic(auto, using(crate::proofs::Turns::last_turn))]
fn moved_out(width: Width, kind: ShiftKind, value: u64, count: u8) -> (u64, bool)
    requires value { value < 2 ^ bits width }
    requires some { 0 < count }
    ensures value { result.0 ≡ moved_by width kind value count }
    ensures bound { result.0 < 2 ^ bits width }
    ensures out { result.1 ≡ last_out width kind value count }
{
    let last = moved_by(width, kind, value, count - 1);
    (moved(width, kind, last), bit_out(width, kind, last))
}

fn overflow_after(width: Width, kind: ShiftKind, value: u64, count: u8, before: Flags) -> bool
    requires { value < 2 ^ bits width }
    ensures { result ≡ overflow_after width kind value count before }
{
    if count == 1 {
        overflow_of_one(width, kind, value)
    } else {
        before.of
    }
}

/// The result and the flags of a count above 0.
fn shifted(width: Width, kind: ShiftKind, value: u64, count: u8, before: Flags) -> (u64, Flags)
    requires value { value < 2 ^ bits width }
    requires some { 0 < count }
    ensures value { result.0 ≡ moved_by width kind value count }
    ensures bound { result.0 < 2 ^ bits width }
    ensures flags { result.1 ≡ flags_after width kind value count before }
{
    let (after, cf) = moved_out(width, kind, value, count);
    let of = overflow_after(width, kind, value, count, before);
    let flags = match kind {
        ShiftKind::Rol | ShiftKind::Ror => Flags { cf, of, ..before },
        ShiftKind::Shl | ShiftKind::Shr | ShiftKind::Sar => Flags {
            cf,
            pf: has_even_parity(after),
            af: before.af,
            zf: after == 0,
            sf: is_negative(width, after),
            of,
        },
    };
    (after, flags)
}

/// An operand shifted or rotated, and the flags (volume 3, 'ROL', 'ROR', 'SAL SHL', 'SHR', 'SAR').
///
/// The count is taken modulo 32, or modulo 64 for 64 bits. A count of 0 sets no flag; a rotation sets CF and OF alone;
/// AF stays, and so does OF where the count is not 1.
#[tactic(auto, unfolding(svm_model::specs::Instructions::Shifts::flags_of_shift, svm_model::specs::Instructions::Shifts::moved_by))]
pub fn shift(width: Width, kind: ShiftKind, value: u64, count: u8, before: Flags) -> (u64, Flags)
    requires { value < 2 ^ bits width }
    ensures value { result.0 ≡ shift_of width kind value count }
    ensures bound { result.0 < 2 ^ bits width }
    ensures flags { result.1 ≡ flags_of_shift width kind value count before }
{
    let count = shift_count(width, count);
    if count == 0 {
        (value, before)
    } else {
        shifted(width, kind, value, count, before)
    }
}
