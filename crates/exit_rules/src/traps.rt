// The exits of exceptions.
ghost use Rattle.std.specs.Prelude.{◌≡◌};
ghost use Rattle.svm_model.specs.Svm.Intercepts.{exception_exit as exit_of_exception, is_exception as exception_test, trap_exit};

use svm_model::{Cause, Exit, Field, Trap};
use vmcb_layout::Fields;

/// Whether an event is an exception: a fault, or that of INT3.
fn is_exception(trap: &Trap) -> bool
    ensures { result ≡ exception_test trap.now trap.now.cause }
{
    match trap.cause {
        Cause::Fault => trap.vector < 32,
        Cause::Software => trap.vector == 3,
        Cause::External | Cause::Nmi => false,
    }
}

/// What the exit of an exception tells: its error code in EXITINFO1, the address of a page fault in EXITINFO2, and the next
/// instruction behind INT3 alone.
fn exception_exit(trap: &Trap, next_rip: u64) -> Exit
    ensures { result ≡ exit_of_exception trap.now next_rip }
{
    let next_rip = match trap.cause {
        Cause::Software => next_rip,
        Cause::Fault | Cause::External | Cause::Nmi => 0,
    };
    Exit {
        code: 0x40 + u64::from(trap.vector),
        info1: u64::from(trap.code.unwrap_or(0)),
        info2: if trap.vector == 14 {
            trap.address.unwrap_or(0)
        } else {
            0
        },
        next_rip,
    }
}

/// The exit of an exception by the intercepts of a VMCB, where the bit of its vector is set (volume 2, 'Exception
/// Intercepts'). None for an interrupt, an NMI and INT n, which are no exceptions.
#[tactic(auto, unfolding(svm_model::specs::Svm::Intercepts::trap_exit))]
pub fn by_trap(fields: &Fields, trap: &Trap, next_rip: u64) -> Option<Exit>
    ensures { result ≡ trap_exit fields.now trap.now next_rip }
{
    if is_exception(trap) && fields.has_bit(Field::ExceptionIntercepts, u16::from(trap.vector)) {
        Some(exception_exit(trap, next_rip))
    } else {
        None
    }
}
