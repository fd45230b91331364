// EVENTINJ.
ghost use Rattle.std.specs.Prelude.{◌≡◌};
ghost use Rattle.svm_model.specs.Svm.VmcbRules.{injected as injected_event, injected_code as code_of, injected_type as of_type, injection_of, is_illegal_injection as illegal_injection};

use crate::bits::bit;
use svm_model::{Cause, Injection, Trap};

/// The error code in bits 63:32, where EV, bit 11, says that there is one.
fn injected_code(word: u64) -> Option<u32>
    ensures { result ≡ code_of word }
{
    if bit(11, word) {
        Some((word >> 32) as u32)
    } else {
        None
    }
}

fn injected(vector: u8, cause: Cause, word: u64) -> Injection
    ensures { result ≡ injected_event vector cause word }
{
    Injection::Event(Trap {
        vector,
        code: injected_code(word),
        address: None,
        cause,
    })
}

/// By the type in bits 10:8: 0 an interrupt, 2 NMI whatever the vector is, 3 an exception, 4 software.
fn injected_type(kind: u8, word: u64) -> Injection
    ensures { result ≡ of_type kind word }
{
    let vector = (word & 0xff) as u8;
    match kind {
        0 => injected(vector, Cause::External, word),
        2 => injected(2, Cause::Nmi, word),
        3 if vector == 2 || vector > 31 => Injection::Illegal,
        3 => injected(vector, Cause::Fault, word),
        4 => injected(vector, Cause::Software, word),
        _ => Injection::Illegal,
    }
}

/// What EVENTINJ holds (volume 2, 'Event Injection'): nothing where V, bit 31, is 0. Illegal are the types 1, 5, 6 and 7,
/// and an exception of vector 2 or above 31. An event has no address; its error code is there where EV is 1.
#[tactic(auto, unfolding(svm_model::specs::Svm::VmcbRules::injection_of))]
pub fn read_injection(value: u64) -> Injection
    ensures { result ≡ injection_of value }
{
    if bit(31, value) {
        injected_type((value >> 8 & 7) as u8, value)
    } else {
        Injection::None
    }
}

/// Whether a word is no EVENTINJ that may be given.
pub(crate) fn is_illegal_injection(value: u64) -> bool
    ensures { result ≡ illegal_injection (injection_of value) }
{
    matches!(read_injection(value), Injection::Illegal)
}
