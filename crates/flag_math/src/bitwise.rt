// Bitwise operations (volume 3, 'AND', 'OR', 'XOR').
ghost use Rattle.std.specs.Prelude.{◌≡◌, ◌^◌, ◌<◌};
ghost use Rattle.svm_model.specs.Instructions.Widths.{bits};
ghost use Rattle.svm_model.specs.Instructions.StatusFlags.{logic_of, flags_of_logic};

use crate::width::{has_even_parity, is_negative};
use svm_model::{Flags, LogicKind, Width};

#[tactic(auto, using(std::proofs::lemmas::Nat::and_le_l, std::proofs::lemmas::Nat::or_lt, std::proofs::lemmas::Nat::xor_lt))]
fn combined(width: Width, kind: LogicKind, left: u64, right: u64) -> u64
    requires left { left < 2 ^ bits width }
    requires right { right < 2 ^ bits width }
    ensures value { result ≡ logic_of kind left right }
    ensures bound { result < 2 ^ bits width }
{
    match kind {
        LogicKind::And => left & right,
        LogicKind::Or => left | right,
        LogicKind::Xor => left ^ right,
    }
}

/// Two operands bit by bit, and the flags: CF and OF are cleared, AF stays as `before` (volume 3, 'AND', 'OR', 'XOR').
#[tactic(auto, unfolding(svm_model::specs::Instructions::StatusFlags::flags_of_logic))]
pub fn logic(width: Width, kind: LogicKind, left: u64, right: u64, before: Flags) -> (u64, Flags)
    requires left { left < 2 ^ bits width }
    requires right { right < 2 ^ bits width }
    ensures value { result.0 ≡ logic_of kind left right }
    ensures bound { result.0 < 2 ^ bits width }
    ensures flags { result.1 ≡ flags_of_logic width (logic_of kind left right) before }
{
    let value = combined(width, kind, left, right);
    let flags = Flags {
        cf: false,
        pf: has_even_parity(value),
        af: before.af,
        zf: value == 0,
        sf: is_negative(width, value),
        of: false,
    };
    (value, flags)
}
