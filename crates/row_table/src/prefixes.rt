// Legacy prefixes and the REX prefix.
ghost use Rattle.std.specs.Prelude.{◌≡◌, ◌≤◌};
ghost use Rattle.svm_model.specs.Instructions.Prefixes.{with_prefix, no_prefix, prefixes_of, rex_of, rex_and_rest};

use crate::input::Input;
use svm_model::{Prefixes, Rex};

/// The prefixes with one more, where the byte is one that may stand here.
fn with_prefix(prefixes: Prefixes, byte: u8) -> Option<Prefixes>
    ensures { result ≡ with_prefix prefixes byte }
{
    match byte {
        0x66 if !prefixes.operand_size => Some(Prefixes {
            operand_size: true,
            ..prefixes
        }),
        0xf0 if !prefixes.lock => Some(Prefixes {
            lock: true,
            ..prefixes
        }),
        0x64 if prefixes.segment == 0 => Some(Prefixes {
            segment: 4,
            ..prefixes
        }),
        0x65 if prefixes.segment == 0 => Some(Prefixes {
            segment: 5,
            ..prefixes
        }),
        _ => None,
    }
}

/// Reads all the legacy prefixes at the front.
#[tactic(auto, unfolding(svm_model::specs::Instructions::Prefixes::prefixes_of))]
pub fn read_prefixes(input: &mut Input) -> Prefixes
    ensures { prefixes_of no_prefix input.old.rest.now ≡ (result, input.new.rest.now) }
{
    let mut prefixes = Prefixes {
        operand_size: false,
        lock: false,
        segment: 0,
    };
    let mut left = input.rest;
    while let Some((byte, rest)) = left.split_first() {
        let Some(more) = with_prefix(prefixes, *byte) else {
            break;
        };
        prefixes = more;
        left = rest;
    }
    input.rest = left;
    prefixes
}

fn rex_of(byte: u8) -> Rex
    ensures { result ≡ rex_of byte }
{
    Rex {
        given: true,
        wide: byte / 8 % 2 == 1,
        register: 8 * (byte / 4 % 2),
        index: 8 * (byte / 2 % 2),
        base: 8 * (byte % 2),
    }
}

/// Reads the REX prefix, where one stands at the front.
#[tactic(auto, unfolding(svm_model::specs::Instructions::Prefixes::rex_and_rest))]
pub fn read_rex(input: &mut Input) -> Rex
    ensures read { rex_and_rest input.old.rest.now ≡ (result, input.new.rest.now) }
    ensures register { result.register ≤ 8 }
    ensures index { result.index ≤ 8 }
    ensures base { result.base ≤ 8 }
{
    let none = Rex {
        given: false,
        wide: false,
        register: 0,
        index: 0,
        base: 0,
    };
    match input.rest {
        [byte @ 0x40..=0x4f, rest @ ..] => {
            let rex = rex_of(*byte);
            input.rest = rest;
            rex
        }
        _ => none,
    }
}
