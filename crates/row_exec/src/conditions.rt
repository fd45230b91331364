// The sixteen conditions of Jcc, SETcc and CMOVcc.
ghost use Rattle.std.specs.Prelude.{◌≡◌};
ghost use Rattle.svm_model.specs.Instructions.Conditions.{even_condition, condition_holds};

use svm_model::Flags;

/// O, B, Z, BE, S, P, L and LE.
fn even_condition(number: u8, flags: Flags) -> bool
    ensures { result ≡ even_condition number flags }
{
    let less = flags.sf != flags.of;
    match number {
        0 => flags.of,
        1 => flags.cf,
        2 => flags.zf,
        3 => flags.cf | flags.zf,
        4 => flags.sf,
        5 => flags.pf,
        6 => less,
        _ => flags.zf | less,
    }
}

/// Whether the condition of this number, of which the low four bits count, holds.
pub fn condition_holds(condition: u8, flags: Flags) -> bool
    ensures { result ≡ condition_holds condition flags }
{
    let holds = even_condition(condition / 2 % 8, flags);
    if condition % 2 == 0 { holds } else { !holds }
}
